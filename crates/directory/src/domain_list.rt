ghost use Rattle.address.specs.Parts.{IsDomain};
ghost use Rattle.directory.specs.Rows.{fits_domain};

use crate::listing::Listing;
use crate::spelling::Spelling;
use address::comparison::same_domain;
use address::parts::is_domain;

// Rows that spell domains, each for every local part.
pub struct Domains;

// A directory whose rows spell domains.
pub type DomainList = Listing<Domains>;

impl Spelling for Domains {
    ghost Spelt = { IsDomain };

    ghost fitting = { fits_domain };

    fn spells(octets: &[u8]) -> bool {
        is_domain(octets)
    }

    fn fits(row: &[u8], _local: &[u8], domain: &[u8]) -> bool {
        same_domain(row, domain)
    }
}
