// A word of 64 bits as a field. One that is too large for the field is taken as its largest, which packs to another word; of a grant every word is
// one.
#![tactic(auto)]

ghost use Rattle.std.specs.Prelude.{◌≡◌};
ghost use Rattle.face_fields.specs.Fields.{short_of, count_of, quanta_of, timer_of, span_word, span_of};

use clock::{Count, Quanta, Span, Timer};

pub fn short_of(word: u64) -> u16
    ensures { result ≡ short_of word }
{
    u16::try_from(word).unwrap_or(u16::MAX)
}

pub fn count_of(word: u64) -> Count
    ensures { result ≡ count_of word }
{
    Count(face_words::narrow(word))
}

pub fn quanta_of(word: u64) -> Quanta
    ensures { result ≡ quanta_of word }
{
    Quanta(face_words::narrow(word))
}

// What is left of a timer, which is not started here: it may be no setting's.
pub fn timer_of(word: u64) -> Timer
    ensures { result ≡ timer_of word }
{
    Timer {
        left: face_words::narrow(word),
    }
}

// A grant's start above its length.
pub fn span_word(span: Span) -> u64
    ensures { result ≡ span_word span }
{
    face_words::join(span.start.0, span.length.0)
}

pub fn span_of(word: u64) -> Span
    ensures { result ≡ span_of word }
{
    Span {
        start: Count(face_words::upper(word)),
        length: Quanta(face_words::lower(word)),
    }
}
