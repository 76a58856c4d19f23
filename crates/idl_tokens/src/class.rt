//! The classes by which the grammar tells tokens.

/// An octet that begins no token, or an unfinished token.
pub const BAD: u8 = 0;

// reserved words, in the order of `Word`
pub const INTERFACE: u8 = 1;

pub const UUID_WORD: u8 = 2;

pub const VERSION: u8 = 3;

pub const POINTER_DEFAULT: u8 = 4;

pub const ENDPOINT: u8 = 5;

pub const REF: u8 = 6;

pub const UNIQUE: u8 = 7;

pub const PTR: u8 = 8;

pub const CONST: u8 = 9;

pub const TYPEDEF: u8 = 10;

pub const VOID: u8 = 11;

pub const IN: u8 = 12;

pub const OUT: u8 = 13;

pub const STRING: u8 = 14;

pub const IDEMPOTENT: u8 = 15;

pub const MAYBE: u8 = 16;

pub const CONTEXT_HANDLE: u8 = 17;

pub const CONTEXT_HANDLE_SERIALIZE: u8 = 18;

pub const CONTEXT_HANDLE_NOSERIALIZE: u8 = 19;

pub const SIZE_IS: u8 = 20;

pub const MAX_IS: u8 = 21;

pub const LENGTH_IS: u8 = 22;

pub const SWITCH_IS: u8 = 23;

pub const SWITCH_TYPE: u8 = 24;

pub const HANDLE_T: u8 = 25;

pub const ERROR_STATUS_T: u8 = 26;

pub const BOOLEAN: u8 = 27;

pub const BYTE: u8 = 28;

pub const UNSIGNED: u8 = 29;

pub const CHAR: u8 = 30;

pub const SMALL: u8 = 31;

pub const SHORT: u8 = 32;

pub const LONG: u8 = 33;

pub const HYPER: u8 = 34;

pub const INT: u8 = 35;

pub const STRUCT: u8 = 36;

pub const UNION: u8 = 37;

pub const SWITCH: u8 = 38;

pub const ENUM: u8 = 39;

pub const CASE: u8 = 40;

pub const DEFAULT: u8 = 41;

// marks
pub const COMMA: u8 = 50;

pub const SEMICOLON: u8 = 51;

pub const COLON: u8 = 52;

pub const STAR: u8 = 53;

pub const EQUALS: u8 = 54;

pub const MINUS: u8 = 55;

pub const DOT: u8 = 56;

// brackets
pub const OPEN_SQUARE: u8 = 60;

pub const OPEN_ROUND: u8 = 61;

pub const OPEN_CURLY: u8 = 62;

pub const SHUT_SQUARE: u8 = 63;

pub const SHUT_ROUND: u8 = 64;

pub const SHUT_CURLY: u8 = 65;

/// A name that is no reserved word.
pub const NAME: u8 = 70;
/// A number.
pub const NUMBER: u8 = 71;
/// A string.
pub const TEXT: u8 = 72;
/// A UUID.
pub const UUID: u8 = 73;
/// The end of the text.
pub const END: u8 = 74;
/// The name `range`, which is a word where an attribute begins.
pub const RANGE: u8 = 75;
