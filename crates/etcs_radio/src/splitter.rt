//! `Splitter`: cuts a stream of bytes into messages. `Fed` and `State`: what it did with a piece, and whether a
//! message is complete.

ghost use Rattle.std.specs.Prelude.{◌≡◌, ◌≢◌, ◌+◌, ◌-◌, ◌<◌, ◌≤◌, ◌^◌, ◌++◌, [], length, take, max, min};
ghost use Rattle.etcs_radio.specs.Splitter.{IsTaken, splitter_state};
ghost use Rattle.etcs_radio.specs.Stream.{AreOneMessageLong, message_length};
ghost use Rattle.arrayvec.specs.ArrayVec.{array_vec_len};

use arrayvec::ArrayVec;
use etcs_bits::BitSlice;
use std::marker::Model;

/// What a [`Splitter`] can do with the bytes that it holds.
#[derive(Clone, Copy, Debug, PartialEq, Eq)]
pub enum State {
    /// It waits for more bytes of a message.
    More,
    /// It holds one complete message.
    Ready,
    /// It holds three bytes whose L_MESSAGE is below 3. No message begins with them, so the beginning of the
    /// next message is unknown. It stays in this state.
    Failed,
}

/// What [`Splitter::feed`] did.
#[derive(Clone, Copy, Debug, PartialEq, Eq)]
pub struct Fed {
    /// How many bytes of the piece were taken, from its front.
    pub used: usize,
    /// The state after that.
    pub state: State,
}

/// Cuts a stream of radio messages, in pieces of any length, into messages (SUBSET-026, 8.4.4). It reads only
/// L_MESSAGE, so a message that it cuts out may still be refused.
///
/// Contracts see it as the bytes that it holds, at most 1,023. Its state depends only on them. No call
/// allocates.
#[derive(Debug, Drop)]
pub struct Splitter {
    bytes: ArrayVec<u8, 1023>,
}

impl Model for Splitter {
    ghost use Rattle.std.specs.Prelude.{ℕ, List};
    ghost use Rattle.etcs_radio.specs.Splitter.{MayBeHeld};

    ghost Value = { List ℕ };

    ghost view = { λ s. s.bytes.items };

    ghost invariant = { λ s. MayBeHeld s.bytes.items };
}

impl Splitter {
    /// A splitter that holds nothing, and waits for a message.
    pub fn new() -> Splitter
        ensures empty { result ≡ [] }
        ensures state { splitter_state result ≡ State.More }
    {
        Splitter {
            bytes: ArrayVec::new(),
        }
    }

    /// Takes bytes from the front of the piece: up to the end of one message, to the third byte of
    /// one whose L_MESSAGE is below 3, or to the end of the piece. A splitter that is ready or has
    /// failed takes nothing.
    pub fn feed(&mut self, piece: &[u8]) -> Fed
        ensures used { IsTaken self.old piece.now result.used }
        ensures held { self.new ≡ self.old ++ take result.used piece.now }
        ensures state { result.state ≡ splitter_state self.new }

        // Once ready or failed, it stays so.
        ensures unused { splitter_state self.old ≢ State.More → result.used ≡ 0 }
        ensures unchanged { splitter_state self.old ≢ State.More → self.new ≡ self.old }
    {
        let head = fill(&mut self.bytes, 3, piece);
        let wanted = wanted(self.bytes.as_slice());
        let rest = fill(&mut self.bytes, wanted, &piece[head..]);
        Fed {
            used: head + rest,
            state: state_with(self.bytes.as_slice()),
        }
    }

    /// The message. The splitter must be ready.
    pub fn message(&self) -> &[u8]
        requires { splitter_state self.now ≡ State.Ready }
        ensures bytes { result.now ≡ self.now }
        ensures whole { AreOneMessageLong result.now }
    {
        self.bytes.as_slice()
    }

    /// How many bytes it holds: at most 1,023, the greatest L_MESSAGE.
    pub fn held(&self) -> usize
        ensures value { result ≡ length self.now }
        ensures fits { result ≤ 1023 }
    {
        self.bytes.len()
    }

    /// Drops the message, so that the splitter holds nothing. Does nothing if the splitter is not ready.
    pub fn clear(&mut self)
        ensures ready { splitter_state self.old ≡ State.Ready → self.new ≡ [] }
        ensures others { splitter_state self.old ≢ State.Ready → self.new ≡ self.old }
    {
        if state_with(self.bytes.as_slice()) == State::Ready {
            self.bytes.clear();
        }
    }
}

// L_MESSAGE of the message that begins with these bytes.
fn length_in(bytes: &[u8]) -> usize
    requires { 3 ≤ length bytes.now }
    ensures value { result ≡ message_length bytes.now }
    ensures small { result < 2 ^ 10 }
{
    BitSlice::of_bytes(bytes, 24).num(8, 10) as usize
}

// The number of bytes to hold: three, which contain L_MESSAGE, and then as many as L_MESSAGE counts.
fn wanted(held: &[u8]) -> usize
    ensures few { length held.now < 3 → result ≡ 3 }
    ensures whole { 3 ≤ length held.now → result ≡ max 3 (message_length held.now) }
    ensures fits { result ≤ 1023 }
{
    if held.len() < 3 {
        return 3;
    }
    length_in(held).max(3)
}

// The state of a splitter that holds these bytes.
#[tactic(auto, using(crate::proofs::StateLemmas::states))]
fn state_with(held: &[u8]) -> State
    ensures { result ≡ splitter_state held.now }
{
    if held.len() < 3 {
        return State::More;
    }
    let length = length_in(held);
    if length == held.len() {
        State::Ready
    } else if length < 3 && held.len() == 3 {
        State::Failed
    } else {
        State::More
    }
}

// Takes bytes from the front of the piece until `count` are held. Returns how many it took.
fn fill(bytes: &mut ArrayVec<u8, 1023>, count: usize, piece: &[u8]) -> usize
    requires { count ≤ 1023 }
    ensures value { result ≡ min (count - array_vec_len bytes.old) (length piece.now) }
    ensures items { bytes.new.items ≡ bytes.old.items ++ take result piece.now }
{
    let used = count.saturating_sub(bytes.len()).min(piece.len());
    // There is room: `count` is at most the capacity.
    let _ = bytes.try_extend_from_slice(&piece[..used]);
    used
}
