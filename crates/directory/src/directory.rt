ghost use Rattle.std.specs.Prelude.{◌≡◌, ℕ, ◌<◌, List, IfSome, Option};

// For each local part and domain, one mailbox or none.
pub trait Directory {
    ghost told: { Self → List ℕ → List ℕ → Option ℕ };

    fn mailbox(&self, local: &[u8], domain: &[u8]) -> Option<usize>
        ensures { result ≡ told self.now local.now domain.now };

    // There are 64 mailboxes.
    ghost below: { (d : Self) (local domain : List ℕ) → IfSome (told d local domain) (λ mailbox. mailbox < 64) };
}
