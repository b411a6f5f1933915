// The image check's answer as numbers (RULES 10.4).
ghost use Rattle.std.specs.Prelude.{◌≡◌};
ghost use Rattle.image.specs.Check.{check_of};
ghost use Rattle.capi.specs.Told.{place_from, refused_sheet, layout_sheet, sheet_of};

use crate::{Place, Sheet};
use image::{Layout, Section};

const NOWHERE: Place = Place { at: 0, words: 0 };

impl From<Section> for Place {
    ghost from_gives = { λ s p. p ≡ place_from s };

    fn from(s: Section) -> Place {
        Place {
            at: s.at,
            words: s.words,
        }
    }
}

fn refused(answer: u8) -> Sheet
    ensures { result ≡ refused_sheet answer }
{
    Sheet {
        answer,
        block: 0,
        status: NOWHERE,
        reserved: NOWHERE,
        epc: NOWHERE,
        tid: NOWHERE,
        user: NOWHERE,
        perma: NOWHERE,
        work: NOWHERE,
    }
}

impl From<Layout> for Sheet {
    ghost from_gives = { λ y s. s ≡ layout_sheet y };

    fn from(y: Layout) -> Sheet {
        Sheet {
            answer: 0,
            block: y.block,
            status: Place::from(y.status),
            reserved: Place::from(y.reserved),
            epc: Place::from(y.epc),
            tid: Place::from(y.tid),
            user: Place::from(y.user),
            perma: Place::from(y.perma),
            work: Place::from(y.work),
        }
    }
}

// The check's answer, read from the image.
pub fn sheet(image: &[u8]) -> Sheet
    ensures { result ≡ sheet_of (check_of image.now) }
{
    match image::ready(image) {
        Ok(_) => Sheet::from(image::read_layout(image)),
        Err(refusal) => refused(u8::from(refusal)),
    }
}
