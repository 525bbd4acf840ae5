// One byte of the grammar: layout, punctuation, and the items by their own steps. `kinds` are those of the open brackets.
ghost use Rattle.std.specs.Prelude.{ℕ, ◌+◌, ◌≤◌, ◌<◌, ◌≡◌, true, List};
ghost use Rattle.meaning.specs.Limits.{text_limit, depth_limit};
ghost use Rattle.machine.specs.Machine.{Bracket, note_of};
ghost use Rattle.machine.specs.Machine as Machine;
ghost use Rattle.arriving.specs.declared.states.Out.TheVariants.{Takes};
ghost use Rattle.arriving.specs.declared.states.Due.TheVariants.{AfterBinary};
ghost use Rattle.arriving.specs.declared.states.Mode.TheVariants.{Packing, Failed};
ghost use Rattle.meaning.specs.declared.Refusal.TheVariants.{NotGrammar};
ghost use Rattle.arriving.specs.declared.states.Octets.TheVariants.{Dollar};
ghost use Rattle.arriving.specs.Between.Steps as Steps;
ghost use Rattle.arriving.specs.Between.Steps.{here_of, kind_of, due_in, TopIs, on_slash, on_line, on_block, on_star};
ghost use Rattle.arriving.specs.Between.Steps.{on_after, begun_figure, on_value, on_key, on_part, after_value};
ghost use Rattle.arriving.specs.Between.Figures.{begin_figure};
ghost use Rattle.arriving.specs.Between.Strings.{open_quote};
ghost use Rattle.arriving.specs.Between.Classes.{class_is};
ghost use Rattle.arriving.specs.Between.Room.{Roomy, Few};
ghost use Rattle.arriving.specs.Between.Arriving.{sane_here};

use crate::classes::{Class, Note};
use crate::states::{Due, Here, Mode, Octets, Out};
use crate::{classes, figures, small, strings, times};
use meaning::{DEPTH_LIMIT, Refusal};

// The kinds of brackets.
pub const ARRAY: u8 = 1;

pub const OBJECT: u8 = 2;

// Where the letters after the first one begin, in the list of words.
const NULL_AT: usize = 1;

const TRUE_AT: usize = 6;

const FALSE_AT: usize = 11;

// In another mode, with all else as it was.
fn moded(here: Here, mode: Mode) -> Here
    ensures { result ≡ here_of mode here.due here.depth here.records here.stored }
{
    Here { mode, ..here }
}

// In another mode, and this is due after it.
fn resumed(here: Here, mode: Mode, due: Due) -> Here
    ensures { result ≡ here_of mode due here.depth here.records here.stored }
{
    Here { mode, due, ..here }
}

// An item begins that is a record, and so many store bytes come; this is due after it.
fn begun(here: Here, mode: Mode, due: Due, n: usize) -> Here
    requires { Roomy here × (n ≤ 258) }
    ensures { result ≡ here_of mode due here.depth (here.records + 1) (here.stored + n) }
{
    Here {
        mode,
        due,
        records: here.records + 1,
        stored: here.stored + n,
        ..here
    }
}

// No rule allows the byte at this place.
fn odd(here: Here, p: usize) -> Here
    ensures { result ≡ here_of (Failed (NotGrammar p)) here.due here.depth here.records here.stored }
{
    moded(here, Mode::Failed(Refusal::NotGrammar(p)))
}

// The kind of the innermost open bracket, where one is open.
#[tactic(auto, unfolding(crate::specs::Between::Steps::top_of, meaning::specs::Limits::depth_limit))]
pub fn top(kinds: &[u8; DEPTH_LIMIT], depth: usize) -> Option<u8>
    requires { depth ≤ depth_limit }
    ensures { TopIs kinds.now depth result }
{
    let last = depth.checked_sub(1)?;
    Some(kinds[last])
}

// An opening bracket: 7 where too many are open.
#[tactic(auto, unfolding(crate::specs::Between::Steps::opened, meaning::specs::Limits::depth_limit))]
fn opened(here: Here, kind: u8, due: Due, p: usize, kinds: &mut [u8; DEPTH_LIMIT]) -> Here
    requires { Roomy here }
    ensures { (c : Bracket) → kind ≡ kind_of c → due ≡ due_in c
        → (result, kinds.new) ≡ Steps.opened (here, kinds.old) p c }
{
    let depth = here.depth;
    if depth >= DEPTH_LIMIT {
        return moded(here, Mode::Failed(Refusal::TooDeep(p)));
    }
    kinds[depth] = kind;
    Here {
        mode: Mode::At,
        due,
        depth: depth + 1,
        records: here.records + 1,
        ..here
    }
}

// A closing bracket of this kind.
#[tactic(auto, unfolding(crate::specs::Between::Steps::closed, crate::specs::Between::Steps::top_of))]
fn closed(here: Here, kind: u8, p: usize, kinds: &[u8; DEPTH_LIMIT]) -> Here
    requires { Roomy here × (1 ≤ kind) }
    ensures { (c : Bracket) → kind ≡ kind_of c → (result, kinds.now) ≡ Steps.closed (here, kinds.now) p c }
{
    match top(kinds, here.depth) {
        Some(last) if last == kind => Here {
            mode: Mode::At,
            due: Due::AfterValue,
            depth: here.depth - 1,
            ..here
        },
        _ => odd(here, p),
    }
}

// A comma after a value: the next element or member.
#[tactic(auto, unfolding(crate::specs::Between::Steps::comma, crate::specs::Between::Steps::top_of))]
fn comma(here: Here, p: usize, kinds: &[u8; DEPTH_LIMIT]) -> Here
    requires { Roomy here }
    ensures { (result, kinds.now) ≡ Steps.comma (here, kinds.now) p }
{
    match top(kinds, here.depth) {
        Some(ARRAY) => resumed(here, Mode::At, Due::Value),
        Some(OBJECT) => resumed(here, Mode::At, Due::Key),
        _ => odd(here, p),
    }
}

// Whether what came may be a value.
pub fn after_value(due: Due) -> bool
    ensures { result ≡ after_value due }
{
    matches!(due, Due::AfterValue | Due::AfterString | Due::AfterBinary)
}

// A closing bracket after a value, or where none has come.
fn closed_after(here: Here, kind: u8, p: usize, kinds: &[u8; DEPTH_LIMIT]) -> Here
    requires { Roomy here × (1 ≤ kind) }
    ensures { (c : Bracket) → kind ≡ kind_of c
        → (result, kinds.now) ≡ on_after (here, kinds.now) p (Machine.close_c c) }
{
    if after_value(here.due) {
        return closed(here, kind, p, kinds);
    }
    odd(here, p)
}

// A comma after a value, or where none has come.
fn comma_after(here: Here, p: usize, kinds: &[u8; DEPTH_LIMIT]) -> Here
    requires { Roomy here }
    ensures { (result, kinds.now) ≡ on_after (here, kinds.now) p Machine.comma_c }
{
    if after_value(here.due) {
        return comma(here, p, kinds);
    }
    odd(here, p)
}

// A colon, after a key alone.
fn colon_after(here: Here, p: usize) -> Here
    ensures { (ks : List ℕ) → (result, ks) ≡ on_after (here, ks) p Machine.colon_c }
{
    match here.due {
        Due::AfterKey | Due::AfterKeyString => resumed(here, Mode::At, Due::Value),
        _ => odd(here, p),
    }
}

// A plus joins the next part to one that has come.
fn plus_after(here: Here, p: usize) -> Here
    ensures { (ks : List ℕ) → (result, ks) ≡ on_after (here, ks) p Machine.plus_c }
{
    match here.due {
        Due::AfterString => resumed(here, Mode::At, Due::StringPart),
        Due::AfterKeyString => resumed(here, Mode::At, Due::KeyPart),
        Due::AfterBinary => resumed(here, Mode::At, Due::BinaryPart),
        _ => odd(here, p),
    }
}

// A byte of this class after a value, a key or a part.
fn on_after(here: Here, p: usize, class: Class, kinds: &[u8; DEPTH_LIMIT]) -> Here
    requires { Roomy here }
    ensures { (result, kinds.now) ≡ on_after (here, kinds.now) p (class_is class) }
{
    match class {
        Class::Blank => moded(here, Mode::At),
        Class::Hash => moded(here, Mode::Line),
        Class::Slash => moded(here, Mode::Slash),
        Class::Comma => comma_after(here, p, kinds),
        Class::CloseArray => closed_after(here, ARRAY, p, kinds),
        Class::CloseObject => closed_after(here, OBJECT, p, kinds),
        Class::Colon => colon_after(here, p),
        Class::Plus => plus_after(here, p),
        _ => odd(here, p),
    }
}

// The first byte of a number or a time value.
#[tactic(auto, unfolding(crate::specs::Between::Steps::begun_figure))]
fn begun_figure(here: Here, p: usize, b: u8) -> Here
    requires { Roomy here }
    ensures { (ks : List ℕ) → (result, ks) ≡ begun_figure (here, ks) p (begin_figure p b) }
{
    match figures::begin(p, b) {
        Out::Takes(mode, n) => begun(here, mode, Due::AfterValue, n),
        Out::Stops => odd(here, p),
        Out::Breaks(why) => moded(here, Mode::Failed(why)),
    }
}

// A byte of this class where a value may stand.
fn on_value(here: Here, p: usize, b: u8, class: Class, kinds: &mut [u8; DEPTH_LIMIT]) -> Here
    requires { Roomy here }
    ensures { (result, kinds.new) ≡ on_value (here, kinds.old) p b (class_is class) }
{
    match class {
        Class::Blank => moded(here, Mode::At),
        Class::Hash => moded(here, Mode::Line),
        Class::Slash => moded(here, Mode::Slash),
        Class::OpenArray => opened(here, ARRAY, Due::Value, p, kinds),
        Class::OpenObject => opened(here, OBJECT, Due::Key, p, kinds),
        Class::CloseArray => closed(here, ARRAY, p, kinds),
        Class::Quote => begun(here, strings::opening(b), Due::AfterString, 0),
        Class::Dollar => begun(here, Mode::Packing(Octets::Dollar), Due::AfterBinary, 0),
        Class::LetterN => begun(here, Mode::Spelling(NULL_AT), Due::AfterValue, 0),
        Class::LetterT => begun(here, Mode::Spelling(TRUE_AT), Due::AfterValue, 0),
        Class::LetterF => begun(here, Mode::Spelling(FALSE_AT), Due::AfterValue, 0),
        Class::Plus | Class::Letter | Class::Other => begun_figure(here, p, b),
        Class::CloseObject | Class::Comma | Class::Colon => odd(here, p),
    }
}

// A byte of this class where a key may stand.
fn on_key(here: Here, p: usize, b: u8, class: Class, kinds: &[u8; DEPTH_LIMIT]) -> Here
    requires { Roomy here }
    ensures { (result, kinds.now) ≡ on_key (here, kinds.now) p b (class_is class) }
{
    match class {
        Class::Blank => moded(here, Mode::At),
        Class::Hash => moded(here, Mode::Line),
        Class::Slash => moded(here, Mode::Slash),
        Class::CloseObject => closed(here, OBJECT, p, kinds),
        Class::Quote => begun(here, strings::opening(b), Due::AfterKeyString, 0),
        Class::Dollar | Class::LetterN | Class::LetterT | Class::LetterF | Class::Letter => {
            begun(here, Mode::Naming, Due::AfterKey, 1)
        }
        _ => odd(here, p),
    }
}

// A byte of this class after a plus: what a quote comes to, and a dollar.
fn on_part(here: Here, quoted: Here, dollared: Here, p: usize, class: Class) -> Here
    ensures { (ks : List ℕ) → (result, ks) ≡ on_part (here, ks) p (quoted, ks) (dollared, ks) (class_is class) }
{
    match class {
        Class::Blank => moded(here, Mode::At),
        Class::Hash => moded(here, Mode::Line),
        Class::Slash => moded(here, Mode::Slash),
        Class::Quote => quoted,
        Class::Dollar => dollared,
        _ => odd(here, p),
    }
}

// A byte of this class where the next part of a string or a key must stand; `after` is due after it.
fn on_string_part(here: Here, after: Due, p: usize, b: u8, class: Class) -> Here
    ensures { (ks : List ℕ) → (result, ks)
        ≡ on_part (here, ks) p (Steps.resumed (here, ks) (open_quote b) after) (Steps.odd (here, ks) p) (class_is class) }
{
    let quoted = resumed(here, strings::opening(b), after);
    let dollared = odd(here, p);
    on_part(here, quoted, dollared, p, class)
}

// A byte of this class where the next part of a binary must stand.
fn on_binary_part(here: Here, p: usize, class: Class) -> Here
    ensures { (ks : List ℕ) → (result, ks)
        ≡ on_part (here, ks) p (Steps.odd (here, ks) p) (Steps.resumed (here, ks) (Packing Dollar) AfterBinary) (class_is class) }
{
    let quoted = odd(here, p);
    let dollared = resumed(here, Mode::Packing(Octets::Dollar), Due::AfterBinary);
    on_part(here, quoted, dollared, p, class)
}

// Where no item stands.
#[tactic(auto, unfolding(crate::specs::Between::Steps::between))]
fn between(here: Here, p: usize, b: u8, kinds: &mut [u8; DEPTH_LIMIT]) -> Here
    requires { Roomy here }
    ensures { (result, kinds.new) ≡ Steps.between (here, kinds.old) p b }
{
    let class = classes::class_of(b);
    match here.due {
        Due::Value => on_value(here, p, b, class, kinds),
        Due::Key => on_key(here, p, b, class, kinds),
        Due::StringPart => on_string_part(here, Due::AfterString, p, b, class),
        Due::KeyPart => on_string_part(here, Due::AfterKeyString, p, b, class),
        Due::BinaryPart => on_binary_part(here, p, class),
        _ => on_after(here, p, class, kinds),
    }
}

// After a slash where no item stands.
fn slash(here: Here, p: usize, b: u8) -> Here
    ensures { (ks : List ℕ) → (result, ks) ≡ on_slash (here, ks) p (note_of b) }
{
    match classes::note_of(b) {
        Note::Slash => moded(here, Mode::Line),
        Note::Star => moded(here, Mode::Block),
        Note::LineEnd | Note::Plain | Note::Control => odd(here, p),
    }
}

// In a line comment.
fn line(here: Here, p: usize, b: u8) -> Here
    ensures { (ks : List ℕ) → (result, ks) ≡ on_line (here, ks) p (note_of b) }
{
    match classes::note_of(b) {
        Note::LineEnd => moded(here, Mode::At),
        Note::Control => odd(here, p),
        Note::Slash | Note::Star | Note::Plain => moded(here, Mode::Line),
    }
}

// In a block comment.
fn block(here: Here, p: usize, b: u8) -> Here
    ensures { (ks : List ℕ) → (result, ks) ≡ on_block (here, ks) p (note_of b) }
{
    match classes::note_of(b) {
        Note::Star => moded(here, Mode::Star),
        Note::Control => odd(here, p),
        Note::Slash | Note::LineEnd | Note::Plain => moded(here, Mode::Block),
    }
}

// After a star in a block comment.
fn star(here: Here, p: usize, b: u8) -> Here
    ensures { (ks : List ℕ) → (result, ks) ≡ on_star (here, ks) p (note_of b) }
{
    match classes::note_of(b) {
        Note::Slash => moded(here, Mode::At),
        Note::Star => moded(here, Mode::Star),
        Note::Control => odd(here, p),
        Note::LineEnd | Note::Plain => moded(here, Mode::Block),
    }
}

// An item goes on in this mode, and so many store bytes come.
fn taken(here: Here, mode: Mode, n: usize) -> Here
    requires { Roomy here × (n ≤ 258) }
    ensures { result ≡ here_of mode here.due here.depth here.records (here.stored + n) }
{
    Here {
        mode,
        stored: here.stored + n,
        ..here
    }
}

// What a byte did to an item. Where the item has stopped before the byte, the byte stands between items.
#[tactic(auto, unfolding(crate::specs::Between::Steps::done))]
fn done(here: Here, out: Out, p: usize, b: u8, kinds: &mut [u8; DEPTH_LIMIT]) -> Here
    requires { Roomy here × Few out }
    ensures { (result, kinds.new) ≡ Steps.done (here, kinds.old) p b out }
{
    match out {
        Out::Takes(mode, n) => taken(here, mode, n),
        Out::Stops => between(moded(here, Mode::At), p, b, kinds),
        Out::Breaks(why) => moded(here, Mode::Failed(why)),
    }
}

// What the byte b does at the place p.
#[tactic(auto, unfolding(crate::specs::Between::Steps::on_mode))]
pub fn next(here: Here, p: usize, b: u8, kinds: &mut [u8; DEPTH_LIMIT]) -> Here
    requires { (sane_here p here ≡ true) × (p < text_limit) }
    ensures { (result, kinds.new) ≡ Steps.next (here, kinds.old) p b }
{
    match here.mode {
        Mode::At => between(here, p, b, kinds),
        Mode::Slash => slash(here, p, b),
        Mode::Line => line(here, p, b),
        Mode::Block => block(here, p, b),
        Mode::Star => star(here, p, b),
        Mode::Spelling(n) => done(here, small::word_next(n, p, b), p, b, kinds),
        Mode::Counting(f) => done(here, figures::figure_next(f, p, b), p, b, kinds),
        Mode::Timing(s, m) => done(here, times::moment_next(s, m, p, b), p, b, kinds),
        Mode::Quoting(k, s) => done(here, strings::quoted_next(k, s, p, b), p, b, kinds),
        Mode::Packing(o) => done(here, small::octets_next(o, p, b), p, b, kinds),
        Mode::Naming => done(here, small::name_next(b), p, b, kinds),
        Mode::Failed(_) => here,
    }
}
