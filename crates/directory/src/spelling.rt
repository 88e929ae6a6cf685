ghost use Rattle.std.specs.Prelude.{◌≡◌, ℕ, Bool, List, Decides};

// What the rows of a directory spell.
pub trait Spelling {
    // octets that are spelt as a row is
    ghost Spelt: { List ℕ → Type 0 };

    // for a row, a local part and a domain, whether they are those of the row
    ghost fitting: { List ℕ → List ℕ → List ℕ → Bool };

    // Whether octets are spelt as a row is.
    fn spells(octets: &[u8]) -> bool
        ensures { Decides result (Spelt octets.now) };

    // Whether a local part and a domain are those of a row.
    fn fits(row: &[u8], local: &[u8], domain: &[u8]) -> bool
        ensures { result ≡ fitting row.now local.now domain.now };
}
