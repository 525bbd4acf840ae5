// Layout: space, tab, LF, CR and comments.
ghost use Rattle.std.specs.Prelude.{◌≡◌, true, ◌≤◌, ◌<◌, eqb, length};
ghost use Rattle.rules.specs.Between.Tests.{Decides};
ghost use Rattle.meaning.specs.Letters.{ch};
ghost use Rattle.machine.specs.Machine.{class_of, blank_c, note_of, line_end, slash_n, control_n, line, block, slash};
ghost use Rattle.reader.specs.Between.Layout.{CommentSays, MaybeSays, Blanks, LayoutSays};

use items::NotGrammar;

// Whether a byte ends a line comment.
fn is_line_end(b: u8) -> bool
    ensures { Decides (note_of b ≡ line_end) result }
{
    matches!(b, b'\n' | b'\r')
}

// Whether no comment may hold a byte: those below U+0020 but tab, LF and CR.
fn is_control(b: u8) -> bool
    ensures { Decides (note_of b ≡ control_n) result }
{
    b < 0x20 && !matches!(b, b'\t' | b'\n' | b'\r')
}

// Whether a byte closes a block comment: a slash, after a star.
fn closes(last: u8, b: u8) -> bool
    ensures { Decides ((eqb last (ch "*") ≡ true) × (note_of b ≡ slash_n)) result }
{
    b == b'/' && last == b'*'
}

// A line comment, after its opening: to the next LF or CR, or the text's end.
fn line(text: &[u8], from: usize) -> Result<usize, NotGrammar>
    requires { from ≤ length text.now }
    ensures { CommentSays text.now line from result }
{
    for at in from..text.len() {
        let b = text[at];
        if is_line_end(b) {
            return Ok(at + 1);
        }
        if is_control(b) {
            return Err(NotGrammar { place: at });
        }
    }
    Ok(text.len())
}

// A block comment, after its opening (whose star closes nothing): to the first star and slash.
fn block(text: &[u8], from: usize) -> Result<usize, NotGrammar>
    requires { from ≤ length text.now }
    ensures { CommentSays text.now block from result }
{
    let mut last = b' ';
    for at in from..text.len() {
        let b = text[at];
        if closes(last, b) {
            return Ok(at + 1);
        }
        if is_control(b) {
            return Err(NotGrammar { place: at });
        }
        last = b;
    }
    Err(NotGrammar { place: text.len() })
}

// After a slash: the byte that opens a comment must follow.
fn slash(text: &[u8], at: usize) -> Result<usize, NotGrammar>
    requires { at ≤ length text.now }
    ensures { CommentSays text.now slash at result }
{
    if at >= text.len() {
        return Err(NotGrammar { place: at });
    }
    match text[at] {
        b'/' => line(text, at + 1),
        b'*' => block(text, at + 1),
        _ => Err(NotGrammar { place: at }),
    }
}

// The end of the comment at a place, if one stands there.
fn comment_at(text: &[u8], at: usize) -> Result<Option<usize>, NotGrammar>
    requires { at ≤ length text.now }
    ensures { MaybeSays text.now at result }
{
    if at >= text.len() {
        return Ok(None);
    }
    match text[at] {
        b'#' => Ok(Some(line(text, at + 1)?)),
        b'/' => Ok(Some(slash(text, at + 1)?)),
        _ => Ok(None),
    }
}

// Whether a byte is a space, tab, LF or CR.
fn is_blank(b: u8) -> bool
    ensures { Decides (class_of b ≡ blank_c) result }
{
    matches!(b, b' ' | b'\t' | b'\n' | b'\r')
}

// The first place from `from` on that is no space, tab, LF or CR. A `position` would count from `from` and want it added.
fn blanks(text: &[u8], from: usize) -> usize
    requires { from ≤ length text.now }
    ensures { Blanks text.now from result }
{
    for at in from..text.len() {
        if !is_blank(text[at]) {
            return at;
        }
    }
    text.len()
}

// Where all the layout from `from` on ends, where there is some. It stays a call, so that `pass` is laid into its callers.
#[inline(never)]
fn long_pass(text: &[u8], from: usize) -> Result<usize, NotGrammar>
    requires { from ≤ length text.now }
    ensures { LayoutSays text.now from result }
{
    let mut at = blanks(text, from);
    while let Some(end) = comment_at(text, at)? {
        at = blanks(text, end);
    }
    Ok(at)
}

// The first place from `from` on where no layout stands. Most often that is `from` itself.
pub fn pass(text: &[u8], from: usize) -> Result<usize, NotGrammar>
    requires { from ≤ length text.now }
    ensures { LayoutSays text.now from result }
{
    if from >= text.len() {
        return Ok(from);
    }
    match text[from] {
        0..=b' ' | b'#' | b'/' => long_pass(text, from),
        _ => Ok(from),
    }
}
