// A script of calls over two sides, each a record and a book, line by line: the calls, and what a line does.
#![tactic(auto)]

ghost use Rattle.std.specs.Prelude.{◌≡◌, ◌≤◌};
ghost use Rattle.differences.specs.Compare.{compared, differ};
ghost use Rattle.differs.specs.Books.{answer_of};
ghost use Rattle.scenes.specs.Sides.{book_of, first_of, second_of};
ghost use Rattle.script.specs.Calls.{output_of};

use console::{BadLine, Hex, Pairs, Words};
use places::{BookMut, BookRef};
use rules::{Position, Refusal, Reply};
use scenes::{Lent, MOST, Setting, Side, Stage, TEXT};
use shows::CallLine;
use std::{fmt, str};

// ---- calls

// Most of what gets and whole are lent, and most entries of a comparison's list; and the bytes that such a list takes.
pub const SIZE: usize = 4096;

pub const OUTPUT: usize = 16384;

// The calls that lend no answers.
#[derive(Clone, Copy, Debug, PartialEq, Eq)]
pub enum Plain {
    Establish,
    Open,
    Close,
    Split,
    Fit,
    Reset,
    Backspace,
}

// The layout calls that lend answers.
#[derive(Clone, Copy)]
pub enum Layout {
    Space,
    Newline,
    Newpage,
    SetCharacter(usize),
    Set(Position),
}

// The puts.
#[derive(Clone, Copy, Debug, PartialEq, Eq)]
pub enum Put<'a> {
    Character(u8),
    String(Pairs<'a>),
    Integer(i32),
}

// The gets.
#[derive(Clone, Copy, Debug, PartialEq, Eq)]
pub enum Get<'a> {
    Character,
    Integer,
    String { size: usize, terminators: Pairs<'a> },
}

// The calls whose line shows the output that they are lent.
#[derive(Clone, Copy)]
pub enum Call<'a> {
    Plain(Plain),
    Layout(Layout),
    Put(Put<'a>),
    Get(Get<'a>),
    Whole { value: i32, width: i16, size: usize },
    Differ { entries: usize },
}

// A view of a line.
#[derive(Clone, Copy, Debug, PartialEq, Eq)]
pub struct View<'a> {
    pub page: usize,
    pub line: usize,
    pub marker: Pairs<'a>,
}

impl Plain {
    fn make(self, lent: Lent) -> Reply {
        let Lent {
            file,
            end,
            text,
            lines,
            pages,
            row: _,
        } = lent;
        let book = &BookRef { text, lines, pages };
        match self {
            Plain::Establish => plain::establish(file, end, text, lines, pages),
            Plain::Open => plain::open(file, end, book),
            Plain::Close => plain::close(file, end, book),
            Plain::Split => plain::choose(file, end, true, book),
            Plain::Fit => plain::choose(file, end, false, book),
            Plain::Reset => plain::reset(file, end, book),
            Plain::Backspace => plain::backspace(file, end, book),
        }
    }
}

impl Layout {
    fn make(self, lent: Lent) -> Reply {
        let Lent {
            file,
            end,
            text,
            lines,
            pages,
            row,
        } = lent;
        let book = &mut BookMut { text, lines, pages };
        match self {
            Layout::Space => layout::space(file, end, book, row),
            Layout::Newline => layout::newline(file, end, book, row),
            Layout::Newpage => layout::newpage(file, end, book, row),
            Layout::SetCharacter(number) => {
                layout::set_character_number(file, end, number, book, row)
            }
            Layout::Set(to) => layout::set(file, end, to, book, row),
        }
    }
}

impl Put<'_> {
    // The bytes of a string go into lent memory.
    fn make(self, lent: Lent, bytes: &mut [u8]) -> Reply {
        let Lent {
            file,
            end,
            text,
            lines,
            pages,
            row,
        } = lent;
        let book = &mut BookMut { text, lines, pages };
        match self {
            Put::Character(byte) => puts::put_character(file, end, byte, book, row),
            Put::String(pairs) => {
                let bytes = pairs.store(bytes);
                puts::put_string(file, end, bytes, book, row)
            }
            Put::Integer(value) => puts::put_integer(file, end, value, book, row),
        }
    }
}

impl Get<'_> {
    // The terminators go into lent memory, and the characters of a string into the output.
    fn make(self, lent: Lent, bytes: &mut [u8], output: &mut [u8]) -> Reply {
        let Lent {
            file,
            end,
            text,
            lines,
            pages,
            row,
        } = lent;
        let book = &mut BookMut { text, lines, pages };
        match self {
            Get::Character => gets::get_character(file, end, book, row),
            Get::Integer => gets::get_integer(file, end, book, row),
            Get::String { terminators, .. } => {
                let terminators = terminators.store(bytes);
                gets::get_string(file, end, terminators, output, book, row)
            }
        }
    }
}

// whole(v, w) into a lent output: how many characters it wrote.
fn write_whole(value: i32, width: i16, output: &mut [u8]) -> Result<usize, Refusal> {
    let width = i32::from(width);
    whole::width_for(value, width, output.len())?;
    Ok(whole::whole(value, width, output).count)
}

// Where two sides differ, into a lent list: how many spans there are. Each side is taken over its own lent parts.
pub fn list_differences(first: &Side, second: &Side, list: &mut [u8]) -> Result<usize, Refusal>
    ensures { compared (book_of first.now) (book_of second.now) (answer_of result list.new) ≡ differ first.now.file (book_of first.now) second.now.file (book_of second.now) list.old }
{
    let here = first.shared();
    let there = second.shared();
    differs::list_differences(
        first.file,
        second.file,
        first.end,
        &here,
        second.end,
        &there,
        list,
    )
}

// The first side compared with the second.
fn compare(stage: &Stage, list: &mut [u8]) -> Result<usize, Refusal>
    ensures { compared (book_of (first_of stage.now)) (book_of (second_of stage.now)) (answer_of result list.new) ≡ differ (first_of stage.now).file (book_of (first_of stage.now)) (second_of stage.now).file (book_of (second_of stage.now)) list.old }
{
    list_differences(stage.first(), stage.second(), list)
}

// The reply of a call that leaves the record of a side.
fn quiet_reply(side: &Side, counted: Result<usize, Refusal>) -> Reply {
    shows::quiet_reply(side.file, side.end, counted)
}

// Leaves the record and the logical end as a call did, and no answers. The book is where it was, and the second side stays.
fn leave(stage: &mut Stage, reply: Reply)
    ensures file { (first_of stage.new).file ≡ reply.file }
    ensures end { (first_of stage.new).end ≡ reply.end }
    ensures book { (first_of stage.new).book ≡ (first_of stage.old).book }
    ensures second { second_of stage.new ≡ second_of stage.old }
    ensures swapped { stage.new.swapped ≡ stage.old.swapped }
{
    let side = stage.first_mut();
    side.file = reply.file;
    side.end = reply.end;
    stage.row.count = 0;
}

impl<'a> Call<'a> {
    // How large an output a call lends, and shows.
    pub fn output_size(self) -> usize
        ensures value { result ≡ output_of self.entry }
        ensures fits { result ≤ OUTPUT }
    {
        match self {
            Call::Get(Get::String { size, .. }) => size.min(SIZE),
            Call::Whole { size, .. } => size.min(SIZE),
            Call::Differ { entries } => 4 * entries.min(SIZE),
            _ => 0,
        }
    }

    // Makes the call on the first side: every byte of the output that it lends is ee before.
    fn make(self, stage: &mut Stage, bytes: &mut [u8], output: &mut [u8; OUTPUT]) -> Reply {
        let output = &mut output[..self.output_size()];
        output.fill(0xee);
        let reply = match self {
            Call::Plain(call) => call.make(stage.lent()),
            Call::Layout(call) => call.make(stage.lent()),
            Call::Put(call) => call.make(stage.lent(), bytes),
            Call::Get(call) => call.make(stage.lent(), bytes, output),
            Call::Whole { value, width, .. } => {
                quiet_reply(stage.first(), write_whole(value, width, output))
            }
            Call::Differ { .. } => quiet_reply(stage.first(), compare(stage, output)),
        };
        leave(stage, reply);
        reply
    }

    // The call of a name that takes no arguments.
    fn of_name(name: &str) -> Option<Call<'a>> {
        match name {
            "establish" => Some(Call::Plain(Plain::Establish)),
            "open" => Some(Call::Plain(Plain::Open)),
            "close" => Some(Call::Plain(Plain::Close)),
            "split" => Some(Call::Plain(Plain::Split)),
            "fit" => Some(Call::Plain(Plain::Fit)),
            "reset" => Some(Call::Plain(Plain::Reset)),
            "backspace" => Some(Call::Plain(Plain::Backspace)),
            "space" => Some(Call::Layout(Layout::Space)),
            "newline" => Some(Call::Layout(Layout::Newline)),
            "newpage" => Some(Call::Layout(Layout::Newpage)),
            "getc" => Some(Call::Get(Get::Character)),
            "geti" => Some(Call::Get(Get::Integer)),
            _ => None,
        }
    }

    // The call that a name and the words after it tell; none for another name.
    fn read(name: &str, words: &mut Words<'a>) -> Result<Option<Call<'a>>, BadLine> {
        let call = match name {
            "putc" => Call::Put(Put::Character(u8::from_be_bytes(words.array()?))),
            "puts" => Call::Put(Put::String(words.pairs()?)),
            "puti" => Call::Put(Put::Integer(words.integer()?)),
            "gets" => Call::Get(Get::String {
                size: words.number(SIZE)?,
                terminators: words.pairs()?,
            }),
            "setc" => Call::Layout(Layout::SetCharacter(words.number(MOST)?)),
            "set" => Call::Layout(Layout::Set(scenes::read_position(words)?)),
            "whole" => Call::Whole {
                value: words.integer()?,
                width: i16::try_from(words.integer()?).map_err(|_| BadLine)?,
                size: words.number(SIZE)?,
            },
            "differ" => Call::Differ {
                entries: words.number(SIZE)?,
            },
            _ => return Ok(Call::of_name(name)),
        };
        Ok(Some(call))
    }
}

impl<'a> View<'a> {
    // Page, line and marker.
    fn read(words: &mut Words<'a>) -> Result<View<'a>, BadLine> {
        Ok(View {
            page: words.number(MOST)?,
            line: words.number(MOST)?,
            marker: words.pairs()?,
        })
    }
}

// ---- a line

// What a line asks for.
#[derive(Clone, Copy)]
pub enum Command<'a> {
    Set(Setting<'a>),
    Call(Call<'a>),
    View(View<'a>),
    Dump,
}

impl<'a> Command<'a> {
    // What a line asks for, by its name and the words after it.
    fn read(name: &str, words: &mut Words<'a>) -> Result<Command<'a>, BadLine> {
        let command = match name {
            "dump" => Command::Dump,
            "view" => Command::View(View::read(words)?),
            _ => match Call::read(name, words)? {
                Some(call) => Command::Call(call),
                None => Command::Set(Setting::read(name, words)?.ok_or(BadLine)?),
            },
        };
        words.end()?;
        Ok(command)
    }
}

// What a line tells.
#[derive(Clone, Copy)]
pub enum Told<'a> {
    Nothing,
    Call(CallLine<'a>),
    Dump(&'a Side),
}

impl fmt::Display for Told<'_> {
    fn fmt<W: fmt::Write>(&self, f: &mut fmt::Formatter<W>) -> fmt::Result {
        match *self {
            Told::Nothing => Ok(()),
            Told::Call(line) => write!(f, "{line}"),
            Told::Dump(side) => {
                let book = side.shared();
                let (text, lines, pages) = (Hex(book.text), Hex(book.lines), Hex(book.pages));
                writeln!(f, "lines {lines}\npages {pages}\ntext {text}")
            }
        }
    }
}

// The stage of a script, and the memory that its calls are lent beside: for bytes that go in, and for the output.
#[derive(Drop)]
pub struct Player {
    pub stage: Stage,
    bytes: [u8; TEXT],
    output: [u8; OUTPUT],
}

impl Player {
    // A player at the start of a script.
    pub fn new() -> Player {
        Player {
            stage: Stage::new(),
            bytes: [0; TEXT],
            output: [0; OUTPUT],
        }
    }

    // Makes a call with the output that it lends.
    fn call(&mut self, call: Call) -> Reply {
        let Player {
            stage,
            bytes,
            output,
        } = self;
        call.make(stage, bytes, output)
    }

    // Looks at a line: the length of its part is told, and the part is shown.
    fn view(&mut self, view: View) -> (Reply, &[u8]) {
        let Player { stage, bytes, .. } = self;
        stage.row.count = 0;
        let View { page, line, marker } = view;
        let marker = marker.store(bytes);
        let side = stage.first();
        let count = side.view(page, line, b"").map(|part| part.len());
        let part = side.line_view(page, line, marker);
        (quiet_reply(side, count), part)
    }

    // Plays a line that is neither empty nor a comment: what it tells.
    pub fn play<'a>(&'a mut self, line: &'a [u8]) -> Result<Told<'a>, BadLine> {
        let mut words = Words::new(line);
        let name = str::from_utf8(words.word()?).map_err(|_| BadLine)?;
        match Command::read(name, &mut words)? {
            Command::Dump => Ok(Told::Dump(self.stage.first())),
            Command::Set(setting) => {
                self.stage.set(setting)?;
                Ok(Told::Nothing)
            }
            Command::View(view) => {
                let (reply, bytes) = self.view(view);
                Ok(Told::Call(CallLine { name, reply, bytes }))
            }
            Command::Call(call) => {
                let reply = self.call(call);
                let bytes = &self.output[..call.output_size()];
                Ok(Told::Call(CallLine { name, reply, bytes }))
            }
        }
    }
}
