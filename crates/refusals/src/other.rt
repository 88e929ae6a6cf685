ghost use Rattle.std.specs.Prelude.{◌≡◌, ◌≤◌};

// The number of a cause that only another make of spool has: 0, or one above 6, since 1 to 6 have names.
#[derive(Clone, Copy, PartialEq, Eq, Debug)]
pub struct OtherCause {
    pub number: u8,
    pub ghost unnamed: { number ≤ 6 → number ≡ 0 },
}
