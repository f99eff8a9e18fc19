//! Laws of radio messages, their bytes and their texts, and of streams of them, for users. They hold
//! for any reader, any writer and any splitter. Each law is the contract of a function that does
//! nothing.

ghost use Rattle.std.specs.Prelude.{◌≡◌, ◌≢◌, ◌↔◌, ◌+◌, ◌<◌, ◌≤◌, ◌++◌, ℕ, List, [], length, take, drop, Ok, Err};
ghost use Rattle.std.specs.List.{concat};
ghost use Rattle.etcs_bits.specs.Laws.{HasLayoutLaws};
ghost use Rattle.etcs_bits.specs.declared.layout.fault.Fault.{Fault};
ghost use Rattle.etcs_bits.specs.layout.Rows.{join};
ghost use Rattle.etcs_radio.specs.declared.message.Message.{Message};
ghost use Rattle.etcs_radio.specs.declared.train_packet.TrainPacket.{TrainPacket as AnyTrainPacket};
ghost use Rattle.etcs_radio.specs.Laws.{IsCompleteSpelling};
ghost use Rattle.etcs_radio.specs.Lrbg.{nid_lrbg};
ghost use Rattle.etcs_radio.specs.Integrity.{q_length};
ghost use Rattle.etcs_radio.specs.Meaning.{read_message};
ghost use Rattle.etcs_radio.specs.Message.{IsMessage, IsMessageFault, IsNoMessage, IsEncoding, IsTooBig};
ghost use Rattle.etcs_radio.specs.Report.{report};
ghost use Rattle.etcs_radio.specs.Text.{IsMessageText, IsCanonicalText, IsReason};
ghost use Rattle.etcs_radio.specs.TextMeaning.{message_of_text};
ghost use Rattle.etcs_radio.specs.RawTrain.{raw_train_packet};
ghost use Rattle.etcs_radio.specs.TrainPacket.{own_rows, train_packet};
ghost use Rattle.etcs_radio.specs.Splitter.{IsTaken, splitter_state};
ghost use Rattle.etcs_radio.specs.Cutting.{IsCut, after_message, cut_stream, cut_pieces, no_message, one_then};
ghost use Rattle.etcs_radio.specs.Stream.{AreBroken, AreMessages, AreRest, AreOneMessageLong, message_length};
ghost use Rattle.etcs_radio.specs.declared.splitter.State.TheVariants.{Failed, Ready};

use crate::error::RadioTextError;
use crate::integrity::Integrity;
use crate::lrbg::Lrbg;
use crate::raw_train::RawTrainPacket;
use crate::report::Report;
use crate::train_packet::TrainPacket;
use etcs_bits::laws::records_are_laid_out;
pub use etcs_bits::laws::sides_have_their_numbers;

// ---- variables and packets

/// Q_LENGTH is laid out with L_TRAININT after 1 and 2.
pub fn integrities_are_laid_out()
    ensures { HasLayoutLaws q_length }
{
    records_are_laid_out::<Integrity>();
}

/// NID_LRBG is laid out in 24 bits.
pub fn references_are_laid_out()
    ensures { HasLayoutLaws nid_lrbg }
{
    records_are_laid_out::<Lrbg>();
}

/// Packets from train to track are laid out in their fields: position reports, packets that are kept
/// as bits, and both in a list.
pub fn train_packets_are_laid_out()
    ensures reports { HasLayoutLaws report }
    ensures raw { HasLayoutLaws raw_train_packet }
    ensures listed { HasLayoutLaws train_packet }
{
    records_are_laid_out::<Report>();
    records_are_laid_out::<RawTrainPacket>();
    records_are_laid_out::<TrainPacket>();
}

/// A packet from train to track has the same bits in a list and by its own layout.
pub fn a_train_packet_of_a_list_is_spelled_as_by_itself()
    ensures { (p : AnyTrainPacket) → join (train_packet.rows p) ≡ join (own_rows p) }
{}

// ---- messages

/// Bytes are a message if and only if they mean that message. They are one message at most.
pub fn messages_are_decoded()
    ensures meant { (m : Message) (bytes : List ℕ)
        → IsMessage m bytes ↔ (read_message bytes ≡ Ok m) }
    ensures one { (m k : Message) (bytes : List ℕ)
        → IsMessage m bytes → IsMessage k bytes → m ≡ k }
{}

/// Bytes have a fault if and only if they mean that fault. So they have one at most. Then they are not a
/// message, and no bytes of the same number with the same first `end` bits are one.
pub fn faults_are_meant()
    ensures fault { (bytes : List ℕ) (f : Fault)
        → IsMessageFault bytes f ↔ (read_message bytes ≡ Err f) }
    ensures none { (bytes : List ℕ) (f : Fault) → IsMessageFault bytes f → IsNoMessage bytes f }
{}

/// Bytes are a message if and only if they are its head, with L_MESSAGE as their count, its packets, and
/// a rest that has fewer than eight bits or begins with eight ones.
pub fn messages_are_spelled_out()
    ensures { (m : Message) (bytes : List ℕ) → IsMessage m bytes ↔ IsCompleteSpelling m bytes }
{}

/// A decoded message is never too big.
pub fn what_is_decoded_is_not_too_big()
    ensures { (m : Message) (bytes : List ℕ) → IsMessage m bytes → IsTooBig m → ⊥ }
{}

/// An encoding is decoded to the message that was encoded.
pub fn what_is_encoded_is_decoded()
    ensures { (m : Message) (bytes : List ℕ) → IsEncoding m bytes → read_message bytes ≡ Ok m }
{}

/// Two messages have equal encodings if and only if they are equal.
pub fn encodings_are_one_to_one()
    ensures messages { (m k : Message) (bytes : List ℕ)
        → IsEncoding m bytes → IsEncoding k bytes → m ≡ k }
    ensures encodings { (m : Message) (a b : List ℕ)
        → IsEncoding m a → IsEncoding m b → a ≡ b }
{}

// ---- texts

/// A text is a message if and only if it means that message. So it is one message at most.
pub fn texts_are_read()
    ensures { (m : Message) (text : List ℕ)
        → IsMessageText m text ↔ (message_of_text text ≡ Ok m) }
{}

/// A text is refused for a reason, other than lack of memory, if and only if it means that reason. So it
/// has one reason at most.
pub fn reasons_are_read()
    ensures { (e : RadioTextError) (text : List ℕ) → e ≢ RadioTextError.Memory
        → IsReason e text ↔ (message_of_text text ≡ Err e) }
{}

/// The canonical text of a message is read as that message.
pub fn what_is_written_is_read()
    ensures { (m : Message) (text : List ℕ)
        → IsCanonicalText m text → message_of_text text ≡ Ok m }
{}

/// Two messages have equal canonical texts if and only if they are equal.
pub fn texts_are_one_to_one()
    ensures messages { (m k : Message) (text : List ℕ)
        → IsCanonicalText m text → IsCanonicalText k text → m ≡ k }
    ensures texts { (m : Message) (a b : List ℕ)
        → IsCanonicalText m a → IsCanonicalText m b → a ≡ b }
{}

// ---- streams

/// A splitter is ready if and only if it holds as many bytes as one message has. It has failed if and only
/// if no message begins with the bytes that it holds.
pub fn states_are_meant()
    ensures ready { (bytes : List ℕ) → splitter_state bytes ≡ Ready ↔ AreOneMessageLong bytes }
    ensures failed { (bytes : List ℕ) → splitter_state bytes ≡ Failed ↔ AreBroken bytes }
{}

/// How many bytes of a piece are taken depends only on the bytes held and on the piece.
pub fn one_number_is_taken()
    ensures { (held piece : List ℕ) (m n : ℕ)
        → IsTaken held piece m → IsTaken held piece n → m ≡ n }
{}

/// Feeding a piece in two parts has the same effect as feeding it at once: the splitter takes the same bytes.
pub fn a_piece_may_be_cut()
    ensures used { (held one other : List ℕ) (m n : ℕ)
        → IsTaken held one m → IsTaken (held ++ take m one) other n
        → IsTaken held (one ++ other) (m + n) }
    ensures held { (held one other : List ℕ) (m n : ℕ)
        → IsTaken held one m → IsTaken (held ++ take m one) other n
        → held ++ take (m + n) (one ++ other) ≡ (held ++ take m one) ++ take n other }
{}

/// Bytes can be divided into messages and a rest in only one way.
pub fn a_stream_is_cut_in_one_way()
    ensures messages { (messages others : List (List ℕ)) (rest other bytes : List ℕ)
        → AreMessages messages rest bytes → AreMessages others other bytes → messages ≡ others }
    ensures rest { (messages others : List (List ℕ)) (rest other bytes : List ℕ)
        → AreMessages messages rest bytes → AreMessages others other bytes → rest ≡ other }
{}

/// A splitter that holds nothing takes the first message of a stream, and no byte after it. It does not
/// become ready by a front of a rest.
pub fn the_first_message_is_taken()
    ensures message { (message more : List ℕ)
        → AreOneMessageLong message → IsTaken [] (message ++ more) (length message) }
    ensures rest { (rest : List ℕ) (n : ℕ)
        → AreRest rest → n ≤ length rest → splitter_state (take n rest) ≢ Ready }
{}

/// What comes out of a splitter that is fed a piece, in terms of one call of `feed`. If the splitter is then
/// ready, its message comes out, and the rest of the piece is fed to the cleared splitter. Otherwise nothing
/// comes out, and it holds the bytes that it took.
pub fn a_stream_is_fed_call_by_call()
    ensures ready { (held piece : List ℕ) (n : ℕ)
        → IsTaken held piece n → splitter_state (held ++ take n piece) ≡ Ready
        → cut_stream held piece ≡ after_message (held ++ take n piece) (cut_stream [] (drop n piece)) }
    ensures others { (held piece : List ℕ) (n : ℕ)
        → IsTaken held piece n → splitter_state (held ++ take n piece) ≢ Ready
        → cut_stream held piece ≡ no_message (held ++ take n piece) }
{}

/// What comes out of a splitter does not depend on the pieces in which it is fed.
pub fn a_stream_may_come_in_pieces()
    ensures two { (held one other : List ℕ)
        → cut_stream held (one ++ other)
        ≡ one_then (cut_stream held one) (cut_stream (cut_stream held one).held other) }
    ensures all { (held : List ℕ) (pieces : List (List ℕ))
        → cut_pieces held pieces ≡ cut_stream held (concat pieces) }
{}

/// The messages of a stream come out of a splitter that held nothing. It then holds the rest. If L_MESSAGE of
/// the rest is below 3, it has failed, and holds the first three bytes of the rest.
pub fn streams_are_cut()
    ensures cut { (bytes : List ℕ) → IsCut (cut_stream [] bytes) bytes }
    ensures messages { (messages : List (List ℕ)) (rest bytes : List ℕ)
        → AreMessages messages rest bytes → (cut_stream [] bytes).messages ≡ messages }
    ensures cut_off { (messages : List (List ℕ)) (rest bytes : List ℕ)
        → AreMessages messages rest bytes → (3 ≤ length rest → length rest < message_length rest)
        → (cut_stream [] bytes).held ≡ rest }
    ensures failed { (messages : List (List ℕ)) (rest bytes : List ℕ)
        → AreMessages messages rest bytes → 3 ≤ length rest → message_length rest < 3
        → splitter_state (cut_stream [] bytes).held ≡ Failed }
    ensures held { (messages : List (List ℕ)) (rest bytes : List ℕ)
        → AreMessages messages rest bytes → 3 ≤ length rest → message_length rest < 3
        → (cut_stream [] bytes).held ≡ take 3 rest }
{}
