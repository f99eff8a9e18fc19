//! Laws that the definitions of the edition and those of other crates say the same. Each law is the contract of
//! a call that does nothing.

ghost use Rattle.std.specs.Prelude.{◌≡◌, ◌↔◌, ℕ, List, [], Bool, true, length, take, Option, Ok, Err, IsErr, IsOkAnd};
ghost use Rattle.etcs_bits.specs.declared.layout.fault.Fault.{Fault};
ghost use Rattle.etcs_bits.specs.declared.variables.identity.Identity.{Identity};
ghost use Rattle.etcs_profile.specs.declared.run.Run.{Run};
ghost use Rattle.etcs_profile.specs.declared.track.TrackPacket.{TrackPacket};
ghost use Rattle.etcs_profile.specs.Track.{track_number, holds};
ghost use Rattle.etcs_profile.specs.PacketNumbers.{is_kept as is_kept_track_packet};
ghost use Rattle.etcs_radio.specs.TrainNumbers.{is_kept as is_kept_train_packet};
ghost use Rattle.etcs_telegram.specs.Record.{Telegram};
ghost use Rattle.etcs_telegram.specs.Telegram.{AreUserBits, IsNoTelegram, IsTelegram as IsDecodedTelegram, IsTelegramFault as IsDecodedTelegramFault};
ghost use Rattle.etcs_telegram.specs.Text.{IsTelegramText as IsDecodedTelegramText, IsCanonicalText as IsEncodedTelegram};
ghost use Rattle.etcs_telegram.specs.Meaning.{read_telegram};
ghost use Rattle.etcs_telegram.specs.TextMeaning.{telegram_of_text};
ghost use Rattle.etcs_radio.specs.declared.message.Message.{Message};
ghost use Rattle.etcs_radio.specs.Message.{IsNoMessage, IsMessage as IsDecodedMessage, IsMessageFault as IsDecodedMessageFault};
ghost use Rattle.etcs_radio.specs.Text.{IsMessageText as IsDecodedMessageText, IsCanonicalText as IsEncodedMessage};
ghost use Rattle.etcs_radio.specs.Meaning.{read_message};
ghost use Rattle.etcs_radio.specs.TextMeaning.{message_of_text};
ghost use Rattle.etcs_group.specs.Group.{Aspects};
ghost use Rattle.etcs_check.specs.Laws.{AreControlled, NamesTheUnsound};
ghost use Rattle.etcs_check.specs.Line.{findings};
ghost use Rattle.etcs_check.specs.Profiles.{AreReached as AreReachedByProfiles};
ghost use Rattle.etcs_check.specs.Soundness.{group_identity as compared_identity};
ghost use Rattle.etcs_check.specs.Violation.{HasParts};
ghost use Rattle.etcs_check.specs.declared.finding.Finding.{Finding};
ghost use Rattle.etcs_document.specs.Document.{line_of_text};
ghost use Rattle.etcs_document.specs.ReportText.{report_words};
ghost use Rattle.etcs_document.specs.Verdict.{SaysYes as CheckSaysYes, summary_of_text};
ghost use Rattle.etcs_document.specs.DocumentFault.{DocumentFault};
ghost use Rattle.etcs_telegram.specs.declared.error.TextError.{TextError};
ghost use Rattle.etcs_radio.specs.declared.error.RadioTextError.{RadioTextError};
ghost use Rattle.serde_json.specs.Data.{Data};
ghost use Rattle.etcs_schema.specs.Codec.{object};
ghost use Rattle.etcs_schema.specs.Fault.{Fault as FormFault};
ghost use Rattle.etcs_json.specs.Telegrams.{telegram};
ghost use Rattle.etcs_json.specs.AnyMessage.{message};
ghost use Rattle.etcs_run.specs.Checking.{check_output};
ghost use Rattle.etcs_run.specs.FormLines.{encoded, telegram_line, message_line};
ghost use Rattle.etcs_run.specs.Output.{Output, each_text_line, line_by_line};
ghost use Rattle.etcs_run.specs.RadioStream.{stream_answers};
ghost use Rattle.etcs_run.specs.TelegramLines.{telegram_decoded};
ghost use Rattle.etcs_edition.specs.Telegram.{IsTelegram, IsTelegramText};
ghost use Rattle.etcs_edition.specs.Message.{has_number, IsMessage, IsMessageText};
ghost use Rattle.etcs_edition.specs.TrackPackets.{track_packet_fields};
ghost use Rattle.etcs_edition.specs.Wire.{bits_of_bytes};
ghost use Rattle.etcs_edition.specs.Kept.{is_kept_to_train, is_kept_to_track};
ghost use Rattle.etcs_edition.specs.Faults.{IsTelegramFault, IsMessageFault, NoTelegramBegins, NoMessageBegins};
ghost use Rattle.etcs_edition.specs.Encoding.{IsWrittenTelegram, IsWrittenMessage};
ghost use Rattle.etcs_edition.specs.Document.{IsLineText};
ghost use Rattle.etcs_edition.specs.Yes.{SaysYes};
ghost use Rattle.etcs_edition.specs.Sound.{is_for, group_identity, AreReached};
ghost use Rattle.etcs_edition.specs.Findings.{RuleHolds, AreFindings};
ghost use Rattle.etcs_edition.specs.Report.{IsReport};
ghost use Rattle.etcs_edition.specs.Refusals.{IsTelegramReason, IsMessageReason, IsDocumentReason};
ghost use Rattle.etcs_edition.specs.Forms.{telegram_form, message_form};
ghost use Rattle.etcs_edition.specs.Keys.{telegram as read_telegram_form, message as read_message_form};
ghost use Rattle.etcs_edition.specs.EncodedLines.{telegram_form_fields, message_form_fields, IsTelegramDigits, IsMessageDigits};
ghost use Rattle.etcs_edition.specs.Output.{IsChecked, IsTelegramLine, IsMessageLine, IsEachLine, IsStream};

/// Bits are a telegram by the edition if and only if they are the one that `etcs_telegram::decode` reads
/// (SUBSET-026, 7.4 and 8.4.2).
pub fn telegrams_agree()
    ensures { (t : Telegram) (bits : List Bool) → IsTelegram t bits ↔ IsDecodedTelegram t bits }
{}

/// A text is that of a telegram by the edition if and only if it is one that `etcs_telegram::from_hex` reads
/// (SUBSET-036, 4.3).
pub fn telegram_texts_agree()
    ensures { (t : Telegram) (text : List ℕ) → IsTelegramText t text ↔ IsDecodedTelegramText t text }
{}

/// Bytes are a radio message by the edition if and only if they are the one that `etcs_radio::decode` reads
/// (SUBSET-026, 8.4.4, 8.6 and 8.7).
pub fn messages_agree()
    ensures { (m : Message) (bytes : List ℕ) → IsMessage m bytes ↔ IsDecodedMessage m bytes }
{}

/// A text is that of a radio message by the edition if and only if it is one that `etcs_radio::from_hex`
/// reads.
pub fn message_texts_agree()
    ensures { (m : Message) (text : List ℕ) → IsMessageText m text ↔ IsDecodedMessageText m text }
{}

/// A packet with this number and this many bits is kept as bits by the edition if and only if the type of the
/// packets that are kept as bits allows it (SUBSET-026, 7.4.1).
pub fn kept_packets_agree()
    ensures to_train { (n bits : ℕ)
        → (is_kept_to_train n bits ≡ true) ↔ (is_kept_track_packet n bits ≡ true) }
    ensures to_track { (n bits : ℕ)
        → (is_kept_to_track n bits ≡ true) ↔ (is_kept_train_packet n bits ≡ true) }
{}

/// A packet from track to train has the number by the edition, NID_PACKET, that contracts see.
pub fn packet_numbers_agree()
    ensures { (p : TrackPacket) (n : ℕ)
        → (has_number n (track_packet_fields p) ≡ true) ↔ (track_number p ≡ n) }
{}

/// A packet is for trains that run in a direction by the edition, by the number of its Q_DIR, if and only if it
/// holds in this direction by the contract of `etcs_profile::TrackPacket::holds_in` (SUBSET-026, 7.5.1).
pub fn running_directions_agree()
    ensures { (run : Run) (p : TrackPacket)
        → (is_for run (track_packet_fields p) ≡ true) ↔ (holds run p ≡ true) }
{}

/// A group has the identity by the edition that the definition of a sound line compares.
pub fn identities_agree()
    ensures { (aspects : Aspects) (identity : Option Identity)
        → (group_identity aspects ≡ identity) ↔ (compared_identity aspects ≡ identity) }
{}

/// Profiles reach each supervised location by the edition, F10 to F13, if and only if they do so by the
/// definitions of a sound reading and of a sound message 3.
pub fn reached_packets_agree()
    ensures { (packets : List TrackPacket) → AreReached packets ↔ AreReachedByProfiles packets }
{}

/// A text is the one that is written for a telegram or a radio message by the edition if and only if it is
/// the one that `etcs_telegram::to_hex` or `etcs_radio::to_hex` writes.
pub fn written_texts_agree()
    ensures telegrams { (t : Telegram) (text : List ℕ) → IsWrittenTelegram t text ↔ IsEncodedTelegram t text }
    ensures messages { (m : Message) (text : List ℕ) → IsWrittenMessage m text ↔ IsEncodedMessage m text }
{}

/// There and back: what is written for a telegram or a radio message is a text of this telegram or message.
pub fn what_is_written_is_read()
    ensures telegrams { (t : Telegram) (text : List ℕ) → IsWrittenTelegram t text → IsTelegramText t text }
    ensures messages { (m : Message) (text : List ℕ) → IsWrittenMessage m text → IsMessageText m text }
{}

/// A text is that of one telegram at most, and of one radio message at most. So no two of them are written as
/// the same text.
pub fn a_text_has_one_record()
    ensures telegrams { (t u : Telegram) (text : List ℕ) → IsTelegramText t text → IsTelegramText u text → t ≡ u }
    ensures messages { (m k : Message) (text : List ℕ) → IsMessageText m text → IsMessageText k text → m ≡ k }
{}

/// Bytes are the document of a line by the edition if and only if `etcs_document::read_line` reads them as
/// this line.
pub fn lines_agree()
    ensures { (bytes : List ℕ) (groups : List Aspects) (messages : List Message)
        → IsLineText bytes groups messages ↔ (line_of_text bytes ≡ Ok (groups, messages)) }
{}

/// The two parts of a yes by the edition hold if and only if everything holds that a yes of
/// `etcs_document::check_in_order` states.
pub fn yes_agrees()
    ensures { (bytes : List ℕ) (groups : List Aspects) (messages : List Message)
        → SaysYes bytes groups messages ↔ CheckSaysYes bytes groups messages }
{}

/// The rule of a finding holds at its place by the edition, F1 to F16, if and only if the parts of soundness
/// hold that findings of `etcs_check::check` are about.
pub fn rules_agree()
    ensures { (groups : List Aspects) (messages : List Message) (f : Finding)
        → RuleHolds groups messages f ↔ HasParts groups messages f }
{}

/// A list is the findings of a line by the edition, which has no tests, if and only if it is the list that
/// `etcs_check::check` returns. Each group has an aspect, and its aspects have as many balises each.
pub fn findings_agree()
    ensures { (groups : List Aspects) (messages : List Message) (found : List Finding) → AreControlled groups
        → AreFindings groups messages found ↔ (found ≡ findings groups messages) }
{}

/// A text is the report on bytes by the edition if and only if the bytes are a line, and the text is the
/// report on the counts and findings that `etcs_document::check_in_order` takes of them.
pub fn reports_agree()
    ensures { (bytes text : List ℕ) → IsReport bytes text
        ↔ IsOkAnd (summary_of_text bytes) (λ s. text ≡ report_words s.0.0 s.0.1 s.1) }
{}

/// A line has a yes by the edition if and only if it has no finding by the edition.
pub fn a_yes_has_no_finding()
    ensures { (bytes : List ℕ) (groups : List Aspects) (messages : List Message)
        → SaysYes bytes groups messages ↔ (IsLineText bytes groups messages × AreFindings groups messages []) }
{}

/// Groups by themselves: no finding by the edition names a group if and only if it is sound and no earlier group
/// has its identity, and none names a message if and only if it is sound.
pub fn findings_name_what_is_not_sound()
    ensures { (bytes : List ℕ) (groups : List Aspects) (messages : List Message) (found : List Finding)
        → IsLineText bytes groups messages → AreFindings groups messages found
        → NamesTheUnsound groups messages found }
{}

/// What is a telegram, a radio message or the document of a line by the edition has no reason to be refused,
/// and everything else has one. `etcs_telegram::from_hex`, `etcs_radio::from_hex` and
/// `etcs_document::read_line` return this reason, or that memory ran out.
pub fn refusals_agree()
    ensures telegrams { (text : List ℕ)
        → ((t : Telegram) → IsTelegramText t text → ⊥) ↔ IsErr (telegram_of_text text) }
    ensures messages { (text : List ℕ)
        → ((m : Message) → IsMessageText m text → ⊥) ↔ IsErr (message_of_text text) }
    ensures documents { (bytes : List ℕ)
        → ((line : List Aspects × List Message) → IsLineText bytes line.0 line.1 → ⊥) ↔ IsErr (line_of_text bytes) }
{}

/// A reason by the edition to refuse a text or a document is the one that `etcs_telegram::from_hex`,
/// `etcs_radio::from_hex` and `etcs_document::read_line` return, unless memory runs out: the first in their order.
pub fn reasons_agree()
    ensures telegrams { (text : List ℕ) (why : TextError)
        → IsTelegramReason text why ↔ (telegram_of_text text ≡ Err why) }
    ensures messages { (text : List ℕ) (why : RadioTextError)
        → IsMessageReason text why ↔ (message_of_text text ≡ Err why) }
    ensures documents { (bytes : List ℕ) (why : DocumentFault)
        → IsDocumentReason bytes why ↔ (line_of_text bytes ≡ Err why) }
{}

/// A value is the JSON form of a telegram or a radio message by the edition if and only if it is the one that
/// `etcs_json::WriteJson::write_json` writes.
pub fn forms_agree()
    ensures telegrams { (t : Telegram) (form : Data) → (form ≡ telegram_form t) ↔ (form ≡ (object telegram).to t) }
    ensures messages { (m : Message) (form : Data) → (form ≡ message_form m) ↔ (form ≡ message.to m) }
{}

/// A value is read as a telegram or a radio message by the edition if and only if `etcs_json::Form::read_json` returns
/// this record, unless memory runs out.
pub fn readings_agree()
    ensures telegrams { (d : Data) (t : Telegram)
        → (read_telegram_form d ≡ Ok (telegram_form_fields t)) ↔ ((object telegram).of d ≡ Ok t) }
    ensures messages { (d : Data) (m : Message)
        → (read_message_form d ≡ Ok (message_form_fields m)) ↔ (message.of d ≡ Ok m) }
{}

/// A value has a fault by the edition, as the form of a telegram or a radio message, if and only if it is the one that
/// `etcs_json::Form::read_json` returns, unless memory runs out.
pub fn form_faults_agree()
    ensures telegrams { (d : Data) (f : FormFault)
        → (read_telegram_form d ≡ Err f) ↔ ((object telegram).of d ≡ Err f) }
    ensures messages { (d : Data) (f : FormFault) → (read_message_form d ≡ Err f) ↔ (message.of d ≡ Err f) }
{}

/// A text and a status are by the edition what the program writes for an input if and only if they are what
/// `etcs_run::execute` writes: for `check`, and for `decode` and `encode`, each also with `--radio`.
pub fn outputs_agree()
    ensures check { (input : List ℕ) (output : Output) → IsChecked input output ↔ (output ≡ check_output input) }
    ensures decode { (input : List ℕ) (output : Output)
        → IsEachLine IsTelegramLine input output ↔ (output ≡ each_text_line telegram_decoded input) }
    ensures decode_radio { (input : List ℕ) (output : Output)
        → IsStream IsMessageLine input output ↔ (output ≡ line_by_line (stream_answers 0 []) input) }
    ensures encode { (input : List ℕ) (output : Output)
        → IsEachLine IsTelegramDigits input output
        ↔ (output ≡ each_text_line (encoded (object telegram) telegram_line) input) }
    ensures encode_radio { (input : List ℕ) (output : Output)
        → IsEachLine IsMessageDigits input output
        ↔ (output ≡ each_text_line (encoded message message_line) input) }
{}

/// A fault is the first one of a telegram's bits, or of a radio message's bytes, by the edition if and only if
/// it is the one that `etcs_telegram::decode` or `etcs_radio::decode` returns.
pub fn first_faults_agree()
    ensures telegrams { (bits : List Bool) (f : Fault) → IsTelegramFault bits f ↔ IsDecodedTelegramFault bits f }
    ensures messages { (bytes : List ℕ) (f : Fault) → IsMessageFault bytes f ↔ IsDecodedMessageFault bytes f }
{}

/// No telegram of as many bits begins with the bits up to the end of a fault by the edition, if and only if none
/// does by the contract of `etcs_telegram::decode`. The same is true of radio messages and `etcs_radio::decode`.
pub fn decisions_agree()
    ensures telegrams { (bits : List Bool) (f : Fault) → AreUserBits bits
        → NoTelegramBegins bits f ↔ IsNoTelegram bits f }
    ensures messages { (bytes : List ℕ) (f : Fault) → NoMessageBegins bytes f ↔ IsNoMessage bytes f }
{}

/// The bits up to the end of a fault decide it: no telegram of as many bits begins with them by the edition,
/// and no radio message of as many bytes.
pub fn a_fault_is_decided_by_its_bits()
    ensures telegrams { (bits others : List Bool) (f : Fault) (t : Telegram) → read_telegram bits ≡ Err f
        → length others ≡ length bits → take f.end others ≡ take f.end bits → IsTelegram t others → ⊥ }
    ensures messages { (bytes others : List ℕ) (f : Fault) (m : Message) → read_message bytes ≡ Err f
        → length others ≡ length bytes → take f.end (bits_of_bytes others) ≡ take f.end (bits_of_bytes bytes)
        → IsMessage m others → ⊥ }
{}
