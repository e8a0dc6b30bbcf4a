//! The numbers of the characters that the grammars name.

pub const QUOTE: u32 = '"' as u32;

pub const NUMBER_SIGN: u32 = '#' as u32;

pub const HYPHEN: u32 = '-' as u32;

pub const DOT: u32 = '.' as u32;

pub const COLON: u32 = ':' as u32;

pub const LESS_THAN: u32 = '<' as u32;

pub const GREATER_THAN: u32 = '>' as u32;

pub const AT_SIGN: u32 = '@' as u32;

pub const BACKSLASH: u32 = '\\' as u32;

pub const CARET: u32 = '^' as u32;

pub const UNDERSCORE: u32 = '_' as u32;
/// Before four hexadecimal digits.
pub const SMALL_U: u32 = 'u' as u32;
/// Before eight.
pub const BIG_U: u32 = 'U' as u32;
