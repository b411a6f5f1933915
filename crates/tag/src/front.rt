// The first answers of a call with an image, 1, 2, 3, 5 and 6 (RULES 5).
ghost use Rattle.std.specs.Prelude.{◌≡◌};
ghost use Rattle.image.specs.Steps.{ready_number, ready_row};
ghost use Rattle.tag.specs.Session.{number_of, row_in, Stops, ready_in, Rejects};
ghost use Rattle.tag.specs.Steps.{held_row, front_by, front_row};

use crate::{Answer, Session};
use image::Refusal;

// Whether an image has pending words, or the check's answer.
pub fn checked(image: &[u8]) -> Result<bool, Answer>
    ensures { (ready_in result ≡ ready_row image.now) × Rejects result }
{
    Ok(image::ready(image)?)
}

// The answer of what the check says: a refusal, or that words are pending.
pub fn stop(ready: Result<bool, Refusal>) -> Result<(), Answer>
    ensures { (row_in result ≡ ready_number ready) × Stops result }
{
    match ready {
        Ok(false) => Ok(()),
        Ok(true) => Err(Answer::NotReady),
        Err(refusal) => Err(Answer::from(refusal)),
    }
}

// The answer of an image that is no good, or has pending words.
pub fn ready(image: &[u8]) -> Result<(), Answer>
    ensures { (row_in result ≡ ready_row image.now) × Stops result }
{
    stop(image::ready(image))
}

// The answer of an Off session: the image's, or 5.
pub fn or_five(ready: Result<(), Answer>) -> Answer
    ensures { number_of result ≡ front_by 5 (row_in ready) }
{
    match ready {
        Ok(()) | Err(Answer::Done) => Answer::NotReady,
        Err(answer) => answer,
    }
}

// A session's own answer to the port's transfers: 5 where it is Off, 6 where the port is free.
pub fn held(session: Session) -> Result<(), Answer>
    ensures { (row_in result ≡ held_row session.power) × Stops result }
{
    match session.power {
        None => Err(Answer::NotReady),
        Some(l) if l.held => Ok(()),
        Some(_) => Err(Answer::Port),
    }
}

// The first answer of an image and a session, whose own is h.
#[tactic(auto, unfolding(crate::specs::Steps::front_row))]
pub fn front(h: Result<(), Answer>, image: &[u8]) -> Result<(), Answer>
    ensures { (row_in result ≡ front_row (row_in h) image.now) × (Stops h → Stops result) }
{
    ready(image)?;
    h
}
