// What a byte is, where no item stands and in a comment.
ghost use Rattle.std.specs.Prelude.{◌≡◌};
ghost use Rattle.machine.specs.Machine.{class_of, note_of};
ghost use Rattle.arriving.specs.Between.Classes.{class_is, note_is};

// A byte where no item stands. Three letters begin a word; `$` begins a binary part or an identifier.
#[derive(Clone, Copy)]
pub enum Class {
    Blank,
    Hash,
    Slash,
    Comma,
    Colon,
    Plus,
    Quote,
    Dollar,
    LetterN,
    LetterT,
    LetterF,
    Letter,
    OpenArray,
    CloseArray,
    OpenObject,
    CloseObject,
    Other,
}

// A byte in a comment.
#[derive(Clone, Copy)]
pub enum Note {
    LineEnd,
    Star,
    Slash,
    Plain,
    Control,
}

// The class of a byte where no item stands.
pub fn class_of(b: u8) -> Class
    ensures { class_of b ≡ class_is result }
{
    match b {
        b' ' | b'\n' | b'\r' | b'\t' => Class::Blank,
        b'#' => Class::Hash,
        b'/' => Class::Slash,
        b',' => Class::Comma,
        b':' => Class::Colon,
        b'+' => Class::Plus,
        b'"' | b'\'' => Class::Quote,
        b'$' => Class::Dollar,
        b'n' => Class::LetterN,
        b't' => Class::LetterT,
        b'f' => Class::LetterF,
        b'[' => Class::OpenArray,
        b']' => Class::CloseArray,
        b'{' => Class::OpenObject,
        b'}' => Class::CloseObject,
        b'A'..=b'Z' | b'a'..=b'z' | b'_' => Class::Letter,
        _ => Class::Other,
    }
}

// The class of a byte in a comment.
pub fn note_of(b: u8) -> Note
    ensures { note_of b ≡ note_is result }
{
    match b {
        b'\n' | b'\r' => Note::LineEnd,
        b'\t' => Note::Plain,
        b'*' => Note::Star,
        b'/' => Note::Slash,
        0..=0x1F => Note::Control,
        _ => Note::Plain,
    }
}
