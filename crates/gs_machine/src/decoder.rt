//! From bytes to characters, one byte at a time.
ghost use Rattle.std.specs.Prelude.{◌≡◌, ◌<◌};
ghost use Rattle.std.specs.Option.{option_to_list};
ghost use Rattle.gs_machine.specs.Utf8.{Ready, is_ready_of, lead, decode_step};
ghost use Rattle.gs_machine.specs.Decoders.{decoding_of, value_bound};

use std::marker::Model;

/// Where in a character a decoder stands.
#[derive(Clone, Copy, Debug, PartialEq, Eq)]
enum Phase {
    Between,
    Last,
    TwoLeft,
    ThreeLeft,
    Lost,
}

/// The phase, the value so far, and the least and the greatest byte that may be next.
#[derive(Clone, Copy, Drop)]
struct State {
    phase: Phase,
    value: u32,
    low: u8,
    high: u8,
}

/// Takes bytes to characters. After the first fault it gives nothing more.
#[derive(Drop)]
pub struct Decoder {
    state: State,
}

impl Model for Decoder {
    ghost use Rattle.std.specs.Prelude.{◌<◌};
    ghost use Rattle.gs_machine.specs.Utf8.{Decoding};
    ghost use Rattle.gs_machine.specs.Decoders.{decoding_of, value_bound};

    ghost Value = { Decoding };

    ghost view = { λ d. decoding_of d.state };

    ghost invariant = { λ d. d.state.value < value_bound d.state.phase };
}

/// What stands for bytes that are no character: a number that no character has.
pub const BAD: u32 = 0x11_0000;

impl Decoder {
    /// A decoder at the start of a text.
    pub fn new() -> Self
        ensures { result ≡ Ready }
    {
        Decoder {
            state: state_at(Phase::Between, 0, 128, 191),
        }
    }

    /// Whether it stands between two characters.
    #[inline]
    pub fn is_ready(&self) -> bool
        ensures { result ≡ is_ready_of self.now }
    {
        self.state.phase == Phase::Between
    }

    /// Takes a byte, and gives the character that ends with it, or `BAD` where none goes on so.
    #[inline]
    pub fn decode(&mut self, byte: u8) -> Option<u32>
        ensures { (self.new, option_to_list result) ≡ decode_step self.old byte }
    {
        let (state, given) = step(self.state, byte);
        self.state = state;
        given
    }
}

fn state_at(phase: Phase, value: u32, low: u8, high: u8) -> State
    ensures { result ≡ record { phase = phase; value = value; low = low; high = high } }
{
    State {
        phase,
        value,
        low,
        high,
    }
}

#[inline]
fn step(state: State, byte: u8) -> (State, Option<u32>)
    requires { state.value < value_bound state.phase }
    ensures step { (decoding_of result.0, option_to_list result.1) ≡ decode_step (decoding_of state) byte }
    ensures bound { result.0.value < value_bound result.0.phase }
{
    if state.phase == Phase::Between {
        return first(byte);
    }
    if state.phase == Phase::Lost {
        return (state, None);
    }
    if byte < state.low || state.high < byte {
        return (state_at(Phase::Lost, 0, 0, 0), Some(BAD));
    }
    let value = state.value * 64 + u32::from(byte.saturating_sub(128));
    match state.phase {
        Phase::ThreeLeft => (state_at(Phase::TwoLeft, value, 128, 191), None),
        Phase::TwoLeft => (state_at(Phase::Last, value, 128, 191), None),
        _ => (state_at(Phase::Between, 0, 128, 191), Some(value)),
    }
}

/// The first byte of a character.
fn first(byte: u8) -> (State, Option<u32>)
    ensures step { (decoding_of result.0, option_to_list result.1) ≡ lead byte }
    ensures bound { result.0.value < value_bound result.0.phase }
{
    if byte < 128 {
        (state_at(Phase::Between, 0, 128, 191), Some(u32::from(byte)))
    } else if byte < 194 {
        (state_at(Phase::Lost, 0, 0, 0), Some(BAD))
    } else if byte < 224 {
        let value = u32::from(byte - 192);
        (state_at(Phase::Last, value, 128, 191), None)
    } else if byte < 240 {
        let value = u32::from(byte - 224);
        let low = if byte == 224 { 160 } else { 128 };
        let high = if byte == 237 { 159 } else { 191 };
        (state_at(Phase::TwoLeft, value, low, high), None)
    } else if byte < 245 {
        let value = u32::from(byte - 240);
        let low = if byte == 240 { 144 } else { 128 };
        let high = if byte == 244 { 143 } else { 191 };
        (state_at(Phase::ThreeLeft, value, low, high), None)
    } else {
        (state_at(Phase::Lost, 0, 0, 0), Some(BAD))
    }
}
