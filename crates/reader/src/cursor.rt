// The cursor, and the cycle of values, arrays and objects. Reading moves forward and never goes back past an item.
ghost use Rattle.std.specs.Prelude.{◌≡◌, ◌-◌, ◌≤◌, ◌<◌, length, get_or};
ghost use Rattle.meaning.specs.Letters.{ch};
ghost use Rattle.machine.specs.Machine.{square, curly};
ghost use Rattle.reader.specs.Between.Cursor.{record_item, item_bytes, SpeltSays, Opens, AtScalar, ScalarSays};
ghost use Rattle.reader.specs.Between.Cursor.{Ready, AtMember, AtValue, Inner, Seen, HeadSays, AheadSays, AfterSays};
ghost use Rattle.reader.specs.Between.Cursor.{ColonSays, MemberSays, MemberAheadSays, ValueSays, InsideSays};

use crate::joined::{OfBinary, OfString, Part};
use crate::{joined, key, layout, repeat};
use items::{Item, Scanned, Taken, number_or_time, word};
use meaning::{Record, Refusal};
use tape::put_record;

// A place in the text, and how many records and store bytes have been put before it.
#[derive(Clone, Copy)]
pub struct Cursor {
    pub at: usize,
    pub records: usize,
    pub stored: usize,
}

// What begins where a value is wanted: an item, or an opening bracket.
#[derive(Clone, Copy)]
enum Head {
    Item(Item, Cursor),
    Array(Cursor),
    Object(Cursor),
}

// In a container, where an element or a member may stand.
#[derive(Clone, Copy)]
enum Ahead {
    Close(Cursor),
    More(Cursor),
}

// After an element or a member.
#[derive(Clone, Copy)]
enum After {
    Comma(Cursor),
    Close(Cursor),
}

// The record of an item whose store bytes begin at `start`.
fn record_of(item: Item, start: usize) -> Record
    ensures { result ≡ record_item item start }
{
    match item {
        Item::Null => Record::Null,
        Item::Bool(b) => Record::Bool(b),
        Item::Number(n) => Record::Number(n),
        Item::Time(t) => Record::Time(t),
        Item::Str(n) => Record::Str { length: n, start },
        Item::Bin(n) => Record::Bin { length: n, start },
    }
}

// The item for which these letters stand, and the place after them; or the byte that no rule allows.
fn spelt(text: &[u8], at: usize, letters: &[u8], item: Item) -> Scanned
    requires { at ≤ length text.now }
    ensures { SpeltSays text.now at letters.now item result }
{
    let end = word::spell(text, at, letters)?;
    Ok(Taken { value: item, end })
}

// A string or binary as an item.
fn joined_item<P: Part>(text: &[u8], at: usize, store: &mut [u8], start: usize) -> Scanned
    requires { Opens P.kind text.now at × (start ≤ at) }
    ensures { ScalarSays text.now at start store.old store.new result }
{
    let bytes = joined::parts::<P>(text, at, store, start)?;
    Ok(Taken {
        value: P::item(bytes.value),
        end: bytes.end,
    })
}

// The item at a place where a value is wanted, no layout and no opening bracket stands.
fn scalar(text: &[u8], at: usize, store: &mut [u8], start: usize) -> Scanned
    requires { AtScalar text.now at start }
    ensures { ScalarSays text.now at start store.old store.new result }
{
    match text[at] {
        b'"' | b'\'' => joined_item::<OfString>(text, at, store, start),
        b'$' => joined_item::<OfBinary>(text, at, store, start),
        b'n' => spelt(text, at, b"null", Item::Null),
        b't' => spelt(text, at, b"true", Item::Bool(true)),
        b'f' => spelt(text, at, b"false", Item::Bool(false)),
        _ => number_or_time::numeric(text, at),
    }
}

// How many store bytes an item has.
fn stored_by(item: Item) -> usize
    ensures { result ≡ item_bytes item }
{
    match item {
        Item::Null | Item::Bool(_) | Item::Number(_) | Item::Time(_) => 0,
        Item::Str(n) | Item::Bin(n) => n,
    }
}

impl Cursor {
    // What begins here, where a value is wanted and no layout stands.
    fn head(self, text: &[u8], store: &mut [u8]) -> Result<Head, Refusal>
        requires { AtValue text.now self }
        ensures { HeadSays text.now self store.old store.new result }
    {
        let at = self.at;
        if at >= text.len() {
            return Err(Refusal::NotGrammar(at));
        }
        let b = text[at];
        if b == b'[' {
            return Ok(Head::Array(Cursor { at: at + 1, ..self }));
        }
        if b == b'{' {
            return Ok(Head::Object(Cursor { at: at + 1, ..self }));
        }
        let item = scalar(text, at, store, self.stored)?;
        let behind = Cursor {
            at: item.end,
            records: self.records + 1,
            stored: self.stored + stored_by(item.value),
        };
        Ok(Head::Item(item.value, behind))
    }

    // In a container that this byte closes: its end, or where an element or a member begins.
    fn ahead(self, text: &[u8], closing: u8) -> Result<Ahead, Refusal>
        requires { Ready text.now self }
        ensures { AheadSays text.now self closing result }
    {
        let at = layout::pass(text, self.at)?;
        if at >= text.len() {
            return Err(Refusal::NotGrammar(at));
        }
        if text[at] == closing {
            return Ok(Ahead::Close(Cursor { at: at + 1, ..self }));
        }
        Ok(Ahead::More(Cursor { at, ..self }))
    }

    // After an element or a member of a container that this byte closes.
    fn after(self, text: &[u8], closing: u8) -> Result<After, Refusal>
        requires { Ready text.now self }
        ensures { AfterSays text.now self closing result }
    {
        let at = layout::pass(text, self.at)?;
        if at >= text.len() {
            return Err(Refusal::NotGrammar(at));
        }
        let b = text[at];
        if b == b',' {
            return Ok(After::Comma(Cursor { at: at + 1, ..self }));
        }
        if b == closing {
            return Ok(After::Close(Cursor { at: at + 1, ..self }));
        }
        Err(Refusal::NotGrammar(at))
    }

    // After a key: a colon, and the layout before the value, where the cursor stands then.
    fn colon(self, text: &[u8]) -> Result<Cursor, Refusal>
        requires { self.at ≤ length text.now }
        ensures { ColonSays text.now self result }
    {
        let at = layout::pass(text, self.at)?;
        if at >= text.len() {
            return Err(Refusal::NotGrammar(at));
        }
        if text[at] != b':' {
            return Err(Refusal::NotGrammar(at));
        }
        let next = layout::pass(text, at + 1)?;
        Ok(Cursor { at: next, ..self })
    }

    // A key and its colon: how many store bytes the key has, and the cursor at the value.
    fn member(self, text: &[u8], store: &mut [u8]) -> Result<(usize, Cursor), Refusal>
        requires { AtMember text.now self }
        ensures { MemberSays text.now self store.old store.new result }
    {
        let key = key::key(text, self.at, store, self.stored)?;
        let behind = Cursor {
            at: key.end,
            records: self.records + 1,
            stored: self.stored + key.value,
        };
        let held = behind.colon(text)?;
        Ok((key.value, held))
    }

    // In an object: its end, or the value of the next member, whose key has been put and noted.
    fn member_ahead(
        self,
        text: &[u8],
        tape: &mut [u8],
        store: &mut [u8],
        seen: &mut [u32],
    ) -> Result<Ahead, Refusal>
        requires { Ready text.now self × Seen text.now seen.old self.at }
        ensures { MemberAheadSays text.now self tape.old tape.new
            store.old store.new seen.old seen.new result }
    {
        let first = match self.ahead(text, b'}')? {
            Ahead::Close(next) => return Ok(Ahead::Close(next)),
            Ahead::More(first) => first,
        };
        let (length, held) = first.member(text, store)?;
        let start = self.stored;
        put_record(tape, self.records, Record::Key { length, start });
        repeat::note(text, first.at, seen);
        Ok(Ahead::More(held))
    }

    // A value, where no layout stands; `depth` more arrays and objects may open.
    #[cycle(array_object_value)]
    pub fn value(
        self,
        text: &[u8],
        depth: usize,
        tape: &mut [u8],
        store: &mut [u8],
        seen: &mut [u32],
    ) -> Result<Cursor, Refusal>
        requires { AtValue text.now self × Seen text.now seen.old self.at }
        ensures { ValueSays text.now depth self tape.old tape.new
            store.old store.new seen.old seen.new result }
    {
        match self.head(text, store)? {
            Head::Item(item, next) => {
                put_record(tape, self.records, record_of(item, self.stored));
                Ok(next)
            }
            Head::Array(inside) => {
                if depth == 0 {
                    return Err(Refusal::TooDeep(self.at));
                }
                inside.array(text, depth - 1, tape, store, seen)
            }
            Head::Object(inside) => {
                if depth == 0 {
                    return Err(Refusal::TooDeep(self.at));
                }
                inside.object(text, depth - 1, tape, store, seen)
            }
        }
    }

    // An array, after its opening bracket.
    #[cycle(array_object_value)]
    fn array(
        self,
        text: &[u8],
        depth: usize,
        tape: &mut [u8],
        store: &mut [u8],
        seen: &mut [u32],
    ) -> Result<Cursor, Refusal>
        requires { Inner text.now self × Seen text.now seen.old (self.at - 1) }
        ensures { InsideSays text.now square depth self tape.old tape.new
            store.old store.new seen.old seen.new result }
    {
        let own = self.records;
        let mut count: usize = 0;
        let mut here = Cursor {
            records: own + 1,
            ..self
        };
        let closed = loop {
            let first = match here.ahead(text, b']')? {
                Ahead::Close(next) => break next,
                Ahead::More(first) => first,
            };
            let last = first.value(text, depth, tape, store, seen)?;
            count += 1;
            match last.after(text, b']')? {
                After::Close(next) => break next,
                After::Comma(next) => here = next,
            }
        };
        let end = closed.records;
        put_record(tape, own, Record::Array { count, end });
        Ok(closed)
    }

    // An object, after its opening bracket.
    #[cycle(array_object_value)]
    fn object(
        self,
        text: &[u8],
        depth: usize,
        tape: &mut [u8],
        store: &mut [u8],
        seen: &mut [u32],
    ) -> Result<Cursor, Refusal>
        requires { Inner text.now self × Seen text.now seen.old (self.at - 1) }
        ensures { InsideSays text.now curly depth self tape.old tape.new
            store.old store.new seen.old seen.new result }
    {
        once::opened(seen);
        let own = self.records;
        let mut count: usize = 0;
        let mut here = Cursor {
            records: own + 1,
            ..self
        };
        let closed = loop {
            let held = match here.member_ahead(text, tape, store, seen)? {
                Ahead::Close(next) => break next,
                Ahead::More(held) => held,
            };
            let last = held.value(text, depth, tape, store, seen)?;
            count += 1;
            match last.after(text, b'}')? {
                After::Close(next) => break next,
                After::Comma(next) => here = next,
            }
        };
        let end = closed.records;
        put_record(tape, own, Record::Object { count, end });
        once::closed(seen);
        Ok(closed)
    }
}
