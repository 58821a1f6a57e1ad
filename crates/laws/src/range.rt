// A sum is worked out in 64 bits and then held to 32: this is the one place where a range is tested.
ghost use Rattle.std.specs.Prelude.{◌≡◌};
ghost use Rattle.laws.specs.Range.{fitting, held_of};

// Whether 32 bits hold it.
pub fn in_range(z: i64) -> bool
    ensures { result ≡ fitting z }
{
    i32::try_from(z).is_ok()
}

// The same number in 32 bits where they hold it, and else 0: a loop that a number out of range doesn't end stores this.
pub fn held(z: i64) -> i32
    ensures { result ≡ held_of z }
{
    i32::try_from(z).unwrap_or(0)
}
