//! Laws of lists of packets and of wholes, for users. A whole is a head and the list of packets
//! after it. Each law is the contract of a call that does nothing. The packets are records whose
//! table of fields begins with NID_PACKET.

ghost use Rattle.std.specs.Prelude.{◌≡◌, ◌+◌, ◌<◌, ◌≤◌, ◌↔◌, ◌⊎◌, Bool, true, false, List, ◌++◌, length, Ok, Err};
ghost use Rattle.std.specs.List.{flat_map};
ghost use Rattle.etcs_bits.specs.declared.layout.fault.Fault.{Fault};
ghost use Rattle.etcs_bits.specs.declared.layout.fault.FaultKind.TheVariants.{NoEnd};
ghost use Rattle.etcs_bits.specs.bits.Number.{num};
ghost use Rattle.etcs_bits.specs.layout.Rows.{Place, AreAllowed, join, IsSpelled};
ghost use Rattle.etcs_packet.specs.Laws.{HasNoMark};
ghost use Rattle.etcs_packet.specs.Lists.{IsHeaded, IsListFault, NoneStand, Stand, ends};
ghost use Rattle.etcs_packet.specs.Reading.{read_list, read_whole, read_first_whole};
ghost use Rattle.etcs_profile.specs.Track.{own_rows, track_packet};
ghost use Rattle.etcs_profile.specs.declared.track.TrackPacket.{TrackPacket};
ghost use Rattle.etcs_packet.specs.Whole.{AreSpelled, BeginsWith, HeadAndListStand, IsWholeFault, NoHeadAndListStands, start};

use crate::stop::Stop;
use etcs_bits::Layout;

/// A list ends at eight ones, whatever follows them. Fewer than eight bits end a message's list,
/// but not a telegram's. The bits before do not count. No list ends at other bits.
pub fn lists_end()
    ensures mark { (stop : Stop) (fill : List Bool) → ends stop (start (num 8 255 ++ fill)) ≡ true }
    ensures message { (fill : List Bool) → length fill < 8
        → ends Stop.Message (start fill) ≡ true }
    ensures telegram { (fill : List Bool) → length fill < 8
        → ends Stop.Telegram (start fill) ≡ false }
    ensures after { (stop : Stop) (front rest : List Bool)
        → ends stop (record { bits = front ++ rest; at = length front }) ≡ ends stop (start rest) }
    ensures only { (stop : Stop) (rest : List Bool) → ends stop (start rest) ≡ true
        → ((stop ≡ Stop.Message) × (length rest < 8))
        ⊎ ((fill : List Bool) × (rest ≡ num 8 255 ++ fill)) }
{}

/// A list stands exactly where reading gives it. Both end at the same place.
pub fn a_list_is_read<T: Layout>()
    requires { IsHeaded T.format.fields }
    ensures { (stop : Stop) (xs : List T) (p q : Place) → p.at ≤ length p.bits
        → Stand stop T.format.rows xs p q
        ↔ (read_list stop T.format.fields T.format.of p ≡ Ok (xs, q)) }
{}

/// A place has at most one list, and that list has one end.
pub fn a_place_has_one_list<T: Layout>()
    requires { IsHeaded T.format.fields }
    ensures { (stop : Stop) (xs ys : List T) (p q r : Place) → p.at ≤ length p.bits
        → Stand stop T.format.rows xs p q → Stand stop T.format.rows ys p r
        → (xs ≡ ys) × (q ≡ r) }
{}

/// A list that stands consists of the spellings of its packets, one after the other, up to its end.
pub fn a_list_is_its_spellings<T: Layout>()
    ensures { (stop : Stop) (xs : List T) (p q : Place) → Stand stop T.format.rows xs p q
        → IsSpelled (flat_map T.format.rows xs) p q × (ends stop q ≡ true) }
{}

/// Reading a list answers a fault exactly where the list has that fault. So a place has at most one
/// fault.
pub fn a_list_fault_is_read<T: Layout>()
    requires { IsHeaded T.format.fields }
    ensures { (stop : Stop) (p : Place) (f : Fault) → p.at ≤ length p.bits
        → IsListFault stop T.format.fields p f
        ↔ (read_list stop T.format.fields T.format.of p ≡ Err f) }
{}

/// A telegram's list that begins where fewer than eight bits are left has the fault NoEnd at that
/// place: no end mark can come. Any input of the same length has as few bits there.
pub fn a_telegram_without_its_mark_has_no_end<T: Layout>()
    requires { IsHeaded T.format.fields }
    ensures { (p : Place) → p.at ≤ length p.bits → length p.bits < p.at + 8
        → IsListFault Stop.Telegram T.format.fields p (record { at = p.at; end = p.at; why = NoEnd }) }
{}

/// A place with a list's fault has no list. This holds in every input of the same length with the
/// same first `end` bits.
pub fn a_list_fault_means_no_list<T: Layout>()
    requires { IsHeaded T.format.fields }
    ensures { (stop : Stop) (p : Place) (f : Fault) → p.at ≤ length p.bits
        → IsListFault stop T.format.fields p f → NoneStand stop T.format.rows p f }
{}

/// Spellings of packets, one after the other, are a list if a list ends at the bits after them. Any
/// bits may come before them. The list ends where the spellings end.
pub fn written_packets_are_a_list<T: Layout>()
    requires { IsHeaded T.format.fields }
    ensures { HasNoMark T.format.fields → (stop : Stop) (xs : List T) (front rest : List Bool)
        → AreAllowed (flat_map T.format.rows xs) → ends stop (start rest) ≡ true
        → (bits : List Bool) → bits ≡ front ++ (join (flat_map T.format.rows xs) ++ rest)
        → Stand stop T.format.rows xs (record { bits = bits; at = length front })
        (record {
          bits = bits;
          at = length front + length (join (flat_map T.format.rows xs));
        }) }
{}

/// A head and its list stand exactly where reading gives them, and end at the place where reading ends.
pub fn a_whole_is_read<H: Layout, T: Layout>()
    requires { IsHeaded T.format.fields }
    ensures { (stop : Stop) (h : H) (xs : List T) (p q : Place) → p.at ≤ length p.bits
        → HeadAndListStand stop H.format.rows T.format.rows h xs p q
        ↔ (read_whole stop H.format.fields H.format.of T.format.fields T.format.of p ≡ Ok ((h, xs), q)) }
{}

/// Bits begin with at most one head and list.
pub fn bits_begin_with_one_whole<H: Layout, T: Layout>()
    requires { IsHeaded T.format.fields }
    ensures { (stop : Stop) (h k : H) (xs ys : List T) (bits : List Bool)
        → BeginsWith stop H.format.rows T.format.rows h xs bits
        → BeginsWith stop H.format.rows T.format.rows k ys bits → (h ≡ k) × (xs ≡ ys) }
{}

/// Reading a whole answers a fault exactly where the whole has that fault.
pub fn a_whole_fault_is_read<H: Layout, T: Layout>()
    requires { IsHeaded T.format.fields }
    ensures { (stop : Stop) (p : Place) (f : Fault) → p.at ≤ length p.bits
        → IsWholeFault stop H.format.fields T.format.fields p f
        ↔ (read_whole stop H.format.fields H.format.of T.format.fields T.format.of p ≡ Err f) }
{}

/// Bits begin with a head and a list exactly if that is what they mean, as a function of them. They
/// have a fault exactly if they mean that fault.
pub fn bits_are_read_as_they_begin<H: Layout, T: Layout>()
    requires { IsHeaded T.format.fields }
    ensures whole { (stop : Stop) (h : H) (xs : List T) (bits : List Bool)
        → BeginsWith stop H.format.rows T.format.rows h xs bits
        ↔ (read_first_whole stop H.format.fields H.format.of T.format.fields T.format.of bits ≡ Ok (h, xs)) }
    ensures fault { (stop : Stop) (bits : List Bool) (f : Fault)
        → IsWholeFault stop H.format.fields T.format.fields (start bits) f
        ↔ (read_first_whole stop H.format.fields H.format.of T.format.fields T.format.of bits ≡ Err f) }
{}

/// A place with the fault of a head and its list has none. This holds in every input of the same length with the
/// same first `end` bits.
pub fn a_whole_fault_means_no_whole<H: Layout, T: Layout>()
    requires { IsHeaded T.format.fields }
    ensures { (stop : Stop) (p : Place) (f : Fault) → p.at ≤ length p.bits
        → IsWholeFault stop H.format.fields T.format.fields p f
        → NoHeadAndListStands stop H.format.rows T.format.rows p f }
{}

/// Bits that begin with a head and a list consist of their spellings and a rest. A list ends where
/// that rest begins.
pub fn a_whole_is_its_spellings<H: Layout, T: Layout>()
    ensures { (stop : Stop) (h : H) (xs : List T) (bits : List Bool)
        → BeginsWith stop H.format.rows T.format.rows h xs bits
        → AreSpelled stop H.format.rows T.format.rows h xs bits }
{}

/// What was written is read back, whatever follows the end of the list: the bits begin with the
/// head and the list, and mean them.
pub fn what_is_written_is_read_back<H: Layout, T: Layout>()
    requires { IsHeaded T.format.fields }
    ensures begins { HasNoMark T.format.fields
        → (stop : Stop) (h : H) (xs : List T) (bits : List Bool)
        → AreSpelled stop H.format.rows T.format.rows h xs bits
        → BeginsWith stop H.format.rows T.format.rows h xs bits }
    ensures means { HasNoMark T.format.fields
        → (stop : Stop) (h : H) (xs : List T) (bits : List Bool)
        → AreSpelled stop H.format.rows T.format.rows h xs bits
        → read_first_whole stop H.format.fields H.format.of T.format.fields T.format.of bits ≡ Ok (h, xs) }
{}

/// A packet from track to train has the same bits in a list and by its own layout.
pub fn a_packet_of_a_list_is_spelled_as_by_itself()
    ensures { (p : TrackPacket) → join (track_packet.rows p) ≡ join (own_rows p) }
{}
