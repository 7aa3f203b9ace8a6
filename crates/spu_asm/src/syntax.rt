//! What lines say.

use spu_decode::Row;
use spu_lex::Token;

/// Which part of a label's value is meant.
#[derive(Clone, Copy)]
pub enum Part {
    Whole,
    High,
    Low,
}

/// A number, or a label with a number added.
#[derive(Clone, Copy)]
pub struct Expression {
    pub label: Option<Token>,
    pub offset: i128,
    pub part: Part,
}

/// What a pattern of operands asks for in turn.
#[derive(Clone, Copy)]
pub enum Slot {
    Rt,
    Ra,
    Rb,
    Rc,
    Channel,
    Value,
    /// The second expression of a hint.
    Second,
    Mark(u8),
}

/// What stands in the operands of an instruction. A channel is in `ra`.
#[derive(Clone, Copy)]
pub struct Given {
    pub rt: u8,
    pub ra: u8,
    pub rb: u8,
    pub rc: u8,
    pub value: Option<Expression>,
    pub second: Option<Expression>,
}

/// How many bytes a value has: one, two, four or eight.
#[derive(Clone, Copy)]
pub enum Size {
    Byte,
    Half,
    Word,
    Double,
}

#[derive(Clone, Copy)]
pub enum Section {
    Text,
    Data,
}

/// What a directive's name stands for.
#[derive(Clone, Copy)]
pub enum Directive {
    /// The rest of the line is skipped.
    Skipped,
    Choose(Section),
    /// The section is named in the arguments.
    ChooseNamed,
    Align,
    Org,
    Skip,
    Values(Size),
    /// A string, and whether a zero byte follows it.
    Text(bool),
}

/// What a mnemonic stands for.
#[derive(Clone, Copy)]
pub enum Mnemonic {
    Row(Row),
    /// The short form `lr`.
    LoadRegister,
}

#[derive(Clone, Copy)]
pub enum Statement {
    /// No statement, or one whose rest is skipped.
    Nothing,
    Choose(Section),
    Align(u32),
    Org(u64),
    Skip(u64),
    /// So many expressions, which the arguments are.
    Values(Size, usize),
    /// So many bytes of a string, which the argument is, and whether a zero byte follows them.
    Bytes(usize, bool),
    Instruction(Row, Given),
}

/// A line: its number from 1, its section, and its statement with the tokens after the statement's name.
#[derive(Clone, Copy)]
pub struct Line<'a> {
    pub number: u32,
    pub section: Section,
    pub statement: Statement,
    pub arguments: &'a [Token],
}

/// The lines that are not read yet: the number and the section of the next, and the tokens from it on.
#[derive(Clone, Copy)]
pub struct Unread<'a> {
    pub number: u32,
    pub section: Section,
    pub tokens: &'a [Token],
}

/// What a value has to be: from `low` to `high`, and a multiple of `step`.
#[derive(Clone, Copy)]
pub struct Range {
    pub low: i128,
    pub high: i128,
    pub step: u32,
}

/// The bytes of text and of data.
#[derive(Drop)]
pub struct Sections {
    pub text: Vec<u8>,
    pub data_bytes: Vec<u8>,
}

/// A line as a listing has it: its number from 1, its section, its address, and the address behind it.
#[derive(Clone, Copy)]
pub struct ListedLine {
    pub number: u32,
    pub section: Section,
    pub at: u32,
    pub next: u32,
}

/// A label, with the number of the line that defines it.
#[derive(Clone, Copy)]
pub struct Label<'a> {
    pub name: &'a [u8],
    pub line: u32,
}
