ghost use Rattle.address.specs.Comparison.{IsPostmaster, SameDomain, SameLocal};
ghost use Rattle.std.specs.Prelude.{Decides};

// Whether two domains are the same.
pub fn same_domain(a: &[u8], b: &[u8]) -> bool
    ensures { Decides result (SameDomain a.now b.now) }
{
    a.eq_ignore_ascii_case(b)
}

// Whether a local part is postmaster.
pub fn is_postmaster(s: &[u8]) -> bool
    ensures { Decides result (IsPostmaster s.now) }
{
    s.eq_ignore_ascii_case(b"postmaster")
}

// Whether two local parts are the same.
pub fn same_local_part(a: &[u8], b: &[u8]) -> bool
    ensures { Decides result (SameLocal a.now b.now) }
{
    a == b || (is_postmaster(a) && is_postmaster(b))
}
