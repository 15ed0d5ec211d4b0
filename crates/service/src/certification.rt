// The rules of certification: one function that sees stamps only.
ghost use Rattle.std.specs.Prelude.{◌≡◌};
ghost use Rattle.service.specs.Refusals.{refusal};
ghost use Rattle.service.specs.Certification.{certification, judged, met};

use crate::refusals::Refusal;
use store::Stamp;

// What an entry asks for: a place at `stamp`, having seen the version written at `seen`.
#[derive(Clone, Copy)]
pub struct Claim {
    pub seen: Option<Stamp>,
    pub written: bool,
    pub stamp: Stamp,
}

// The item as the claim meets it: its two stamps, the oldest write token above `twrite`, and the youngest read token.
#[derive(Clone, Copy)]
pub struct Standing {
    pub twrite: Stamp,
    pub tread: Stamp,
    pub writer: Option<Stamp>,
    pub reader: Option<Stamp>,
}

// The first rule that it fails rejects the claim.
pub fn check(claim: Claim, standing: Standing) -> Result<(), Refusal>
    ensures { result ≡ judged (refusal (certification claim (met claim.stamp standing))) }
{
    if let Some(seen) = claim.seen {
        if standing.twrite != seen {
            return Err(Refusal::VersionChanged);
        }
        if claim.stamp <= standing.twrite {
            return Err(Refusal::BehindWrite);
        }
        if standing.writer.is_some_and(|writer| writer < claim.stamp) {
            return Err(Refusal::WriteBetween);
        }
    }
    if claim.written {
        if claim.stamp <= standing.tread {
            return Err(Refusal::BehindRead);
        }
        if standing.reader.is_some_and(|reader| claim.stamp <= reader) {
            return Err(Refusal::ReadStands);
        }
    }
    Ok(())
}
