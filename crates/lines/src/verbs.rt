// The first words of bench's lines.

#[derive(Clone, Copy, Debug, PartialEq, Eq)]
pub enum Verb {
    Image,
    Check,
    Power,
    Frame,
    Ask,
    Release,
    Register,
    Read,
    Write,
    Dump,
}

pub fn verb_of(word: &[u8]) -> Option<Verb> {
    Some(match word {
        b"image" => Verb::Image,
        b"check" => Verb::Check,
        b"power" => Verb::Power,
        b"frame" => Verb::Frame,
        b"ask" => Verb::Ask,
        b"release" => Verb::Release,
        b"register" => Verb::Register,
        b"read" => Verb::Read,
        b"write" => Verb::Write,
        b"dump" => Verb::Dump,
        _ => return None,
    })
}
