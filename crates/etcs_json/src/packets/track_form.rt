//! The JSON form of `TrackPacket`, which its number decides, and of `Linking`, `Gradient` and `SpeedProfile`, packets 5,
//! 21 and 27, with their elements.

ghost use Rattle.std.proofs.Common.{lit<};
ghost use Rattle.std.specs.Prelude.{◌≡◌, ◌<◌, ◌≤◌, ◌∷◌, [], codes, length, Some, Ok, OnOk};
ghost use Rattle.std.specs.List.{AllByRecursion};
ghost use Rattle.etcs_profile.specs.Elements.{profile as made_of};
ghost use Rattle.serde_json.specs.Data.{Data, array};
ghost use Rattle.etcs_schema.specs.Fault.{Returns, IfMemory, Range, here};
ghost use Rattle.etcs_schema.specs.Head.{packet};
ghost use Rattle.etcs_schema.specs.Writing.{AddsMembers};
ghost use Rattle.etcs_json.specs.TrackPackets.{difference, gradient, gradient_element, is_short, link, linking, decoded_profile, speed_element, speed_profile, track_packet};
ghost use Rattle.etcs_schema.specs.Codec.{encoded_items, only, number_data, whole};
ghost use Rattle.etcs_schema.specs.Variables.{direction, scale};

use crate::members::{
    ListMember, Member, NonEmpty, NonEmptyMember, NumberMember, OptionalMember, ReadMembers,
    check_members, pairs, read_record, write_members,
};
use crate::packets::authority_form::{read_with_main, read_without_main};
use crate::reading::read_first;
use crate::record::{
    InRange, LayoutRecord, ObjectCodec, ObjectForm, prove_all_allowed, prove_allowed,
};
use crate::{Form, Record, WriteJson};
use etcs_bits::{Dir, Layout, Memory, Ranged, Scale};
use etcs_packet::TrackPacket;
use etcs_profile::{
    Difference, Elements, Gradient, GradientElement, Link, Linking, Packet, SpeedElement,
    SpeedProfile,
};
use etcs_schema::reading::read_fixed;
use etcs_schema::{FormError, JsonValue, TokenWriter};
use std::alloc::Global;

// Writes the members of a packet of elements. `name` is the key of the list of its elements.
fn write_profile<const N: u32, T: WriteJson + Layout, M: TokenWriter>(
    out: &mut M,
    name: &'static str,
    packet: &Packet<N, Elements<T>>,
) -> Result<(), Memory>
    ensures { OnOk result (AddsMembers M.adds (
        (name.now, Some (array (encoded_items T.codec.to (packet.now.1.first ∷ packet.now.1.further))))
        ∷ (codes "nid_packet", Some (number_data N))
        ∷ (codes "q_dir", Some (direction.to packet.now.0))
        ∷ (codes "q_scale", Some (scale.to packet.now.1.scale)) ∷ [])
        out.old out.new) }
{
    write_members!(out;
        NonEmptyMember(name, packet.first(), packet.further()),
        NumberMember("nid_packet", u64::from(N)),
        Member("q_dir", &packet.dir()),
        Member("q_scale", &packet.scale()),
    )
}

// The packet of these elements. It is refused if it has more than 8,191 bits.
fn packet_of<const N: u32, T: Form + Layout>(
    alloc: Global,
    dir: Dir,
    scale: Scale,
    first: T,
    further: Vec<T>,
) -> Result<Packet<N, Elements<T>>, FormError>
    requires { (T.fit first × AllByRecursion T.fit further.items) × (length further.items < 32) }
    ensures gives { Returns (λ p. p) result
        (only (here Range) (is_short T.format) (dir, made_of scale first further.items)) }
    ensures memory { IfMemory result ⊥ }
{
    match Elements::new(scale, first, further) {
        Ok(body) => match Packet::of(dir, body) {
            Some(packet) => Ok(packet),
            None => Err(FormError::range(alloc)),
        },
        Err(_) => Err(FormError::range(alloc)),
    }
}

// Reads the members of a packet of elements after its number.
fn read_profile<const K: u32, T: Form + Layout, N: JsonValue>(
    alloc: Global,
    node: &N,
    name: &'static str,
) -> Result<Packet<K, Elements<T>>, FormError>
    requires { (d : Data) → (x : T) → T.codec.of d ≡ Ok x → T.fit x }
    ensures { Returns (λ p. p) result (decoded_profile name.now T.format T.codec.of (N.value node.now)) }
{
    let found = ReadMembers::read(alloc, node, pairs!("q_dir", "q_scale", name))?;
    let (dir, (scale, NonEmpty { first, further })) = found;
    packet_of(alloc, dir, scale, first, further)
}

// ---- linking

impl Record for Link {
    ghost object = { whole link };
}

impl LayoutRecord for Link {
    ghost keeps = { λ x allowed. allowed tt };
}

#[tactic(auto, unfolding(crate::specs::TrackPackets::link))]
impl ObjectCodec for Link {
    fn write_members<M: TokenWriter>(&self, out: &mut M) -> Result<(), Memory> {
        write_members!(out;
            Member("d_link", &self.distance),
            Member("nid_bg", &self.group),
            OptionalMember("nid_c", &self.country),
            Member("q_linkorientation", &self.nominal),
            Member("q_linkreaction", &self.reaction),
            Member("q_locacc", &self.accuracy),
        )
    }

    fn read_object<N: JsonValue>(alloc: Global, node: &N) -> Result<Self, FormError> {
        check_members!(alloc, node; "d_link", "nid_bg", "nid_c", "q_linkorientation", "q_linkreaction", "q_locacc");
        read_record!(Link, alloc, node;
            distance "d_link",
            country "nid_c",
            group "nid_bg",
            nominal "q_linkorientation",
            reaction "q_linkreaction",
            accuracy "q_locacc",
        )
    }
}

impl Record for Linking {
    ghost object = { packet linking };
}

impl LayoutRecord for Linking {
    ghost keeps = { λ x allowed. allowed (lit< tt) };
}

#[tactic(auto, unfolding(crate::specs::TrackPackets::linking))]
impl ObjectCodec for Linking {
    fn write_members<M: TokenWriter>(&self, out: &mut M) -> Result<(), Memory> {
        write_profile(out, "links", self)
    }

    fn read_object<N: JsonValue>(alloc: Global, node: &N) -> Result<Self, FormError> {
        check_members!(alloc, node; "links", "nid_packet", "q_dir", "q_scale");
        read_fixed(alloc, node, "nid_packet", 5)?;
        read_profile(alloc, node, "links")
    }
}

// ---- gradients

impl Record for GradientElement {
    ghost object = { whole gradient_element };
}

impl LayoutRecord for GradientElement {
    ghost keeps = { λ x allowed. allowed tt };
}

#[tactic(auto, unfolding(crate::specs::TrackPackets::gradient_element, etcs_schema::specs::Reading::only_keys, etcs_schema::specs::Reading::required_member))]
impl ObjectCodec for GradientElement {
    fn write_members<M: TokenWriter>(&self, out: &mut M) -> Result<(), Memory> {
        write_members!(out;
            Member("d_gradient", &self.distance),
            Member("g_a", &self.gradient),
            Member("q_gdir", &self.uphill),
        )
    }

    fn read_object<N: JsonValue>(alloc: Global, node: &N) -> Result<Self, FormError> {
        check_members!(alloc, node; "d_gradient", "g_a", "q_gdir");
        read_record!(GradientElement, alloc, node;
            distance "d_gradient",
            uphill "q_gdir",
            gradient "g_a",
        )
    }
}

impl Record for Gradient {
    ghost object = { packet gradient };
}

impl LayoutRecord for Gradient {
    ghost keeps = { λ x allowed. allowed (lit< tt) };
}

#[tactic(auto, unfolding(crate::specs::TrackPackets::gradient))]
impl ObjectCodec for Gradient {
    fn write_members<M: TokenWriter>(&self, out: &mut M) -> Result<(), Memory> {
        write_profile(out, "elements", self)
    }

    fn read_object<N: JsonValue>(alloc: Global, node: &N) -> Result<Self, FormError> {
        check_members!(alloc, node; "elements", "nid_packet", "q_dir", "q_scale");
        read_fixed(alloc, node, "nid_packet", 21)?;
        read_profile(alloc, node, "elements")
    }
}

// ---- speeds

impl Record for Difference {
    ghost object = { whole difference };
}

impl LayoutRecord for Difference {
    ghost keeps = { λ x allowed. allowed tt };
}

#[tactic(auto, unfolding(crate::specs::TrackPackets::difference))]
impl ObjectCodec for Difference {
    fn write_members<M: TokenWriter>(&self, out: &mut M) -> Result<(), Memory> {
        write_members!(out;
            Member("nc", &self.category),
            Member("q_diff", &self.kind),
            Member("v_diff", &self.speed),
        )
    }

    fn read_object<N: JsonValue>(alloc: Global, node: &N) -> Result<Self, FormError> {
        check_members!(alloc, node; "nc", "q_diff", "v_diff");
        read_record!(Difference, alloc, node;
            kind "q_diff",
            category "nc",
            speed "v_diff",
        )
    }
}

impl Record for SpeedElement {
    ghost object = { whole speed_element };

    // The types keep the numbers in range, except the count of differences.
    ghost bounded = { λ e. length e.differences ≤ 31 };
}

#[tactic(auto, using(crate::proofs::LawLemmas::speed_read))]
impl InRange for SpeedElement {
    fn prove_in_range(&self) {
        prove_allowed(self);
        prove_allowed(&self.distance);
        prove_allowed(&self.speed);
        prove_allowed(&self.front);
        prove_all_allowed(self.differences.as_slice());
    }
}

#[tactic(auto, unfolding(crate::specs::TrackPackets::speed_element))]
impl ObjectCodec for SpeedElement {
    fn write_members<M: TokenWriter>(&self, out: &mut M) -> Result<(), Memory> {
        write_members!(out;
            Member("d_static", &self.distance),
            ListMember("differences", self.differences.as_slice()),
            Member("q_front", &self.front),
            Member("v_static", &self.speed),
        )
    }

    fn read_object<N: JsonValue>(alloc: Global, node: &N) -> Result<Self, FormError> {
        check_members!(alloc, node; "d_static", "differences", "q_front", "v_static");
        read_record!(SpeedElement, alloc, node;
            distance "d_static",
            speed "v_static",
            front "q_front",
            differences "differences",
        )
    }
}

impl Record for SpeedProfile {
    ghost object = { packet speed_profile };
}

impl LayoutRecord for SpeedProfile {
    ghost keeps = { λ x allowed. allowed (lit< tt) };
}

#[tactic(auto, using(crate::proofs::ReadLemmas::few_at), unfolding(crate::specs::TrackPackets::speed_profile, crate::specs::TrackPackets::speed_element))]
impl ObjectCodec for SpeedProfile {
    fn write_members<M: TokenWriter>(&self, out: &mut M) -> Result<(), Memory> {
        write_profile(out, "elements", self)
    }

    fn read_object<N: JsonValue>(alloc: Global, node: &N) -> Result<Self, FormError> {
        check_members!(alloc, node; "elements", "nid_packet", "q_dir", "q_scale");
        read_fixed(alloc, node, "nid_packet", 27)?;
        read_profile(alloc, node, "elements")
    }
}

// ---- the packet of a number

#[tactic(auto, using(crate::proofs::SumLemmas::with_main_read, crate::proofs::SumLemmas::without_main_read, crate::proofs::SumLemmas::cover_read), unfolding(crate::specs::Cover::cover_marker))]
impl ObjectForm for TrackPacket {
    ghost form = { track_packet };

    #[tactic(auto, using(crate::proofs::LawLemmas::track_read))]
    fn prove_read_back(&self) {
        prove_allowed(self);
    }

    #[tactic(auto, using(crate::proofs::SumLemmas::authority_to), unfolding(crate::specs::Cover::cover_marker))]
    fn write_object<M: TokenWriter>(&self, out: &mut M) -> Result<(), Memory> {
        match self {
            TrackPacket::Cover(packet) => packet.write_object(out),
            TrackPacket::Linking(packet) => packet.write_object(out),
            TrackPacket::Authority(packet) => packet.write_object(out),
            TrackPacket::Gradient(packet) => packet.write_object(out),
            TrackPacket::Speed(packet) => packet.write_object(out),
            TrackPacket::Transition(packet) => packet.write_object(out),
            TrackPacket::Raw(packet) => packet.write_object(out),
        }
    }

    fn read_form<N: JsonValue>(alloc: Global, node: &N) -> Result<Self, FormError> {
        let number: Ranged<8, 254, 256> = read_first(alloc, node, "nid_packet")?;
        match number.number() {
            0 => Ok(TrackPacket::Cover(Form::read_json(alloc, node)?)),
            5 => Ok(TrackPacket::Linking(Form::read_json(alloc, node)?)),
            12 => Ok(TrackPacket::Authority(read_with_main(alloc, node)?)),
            15 => Ok(TrackPacket::Authority(read_without_main(alloc, node)?)),
            21 => Ok(TrackPacket::Gradient(Form::read_json(alloc, node)?)),
            27 => Ok(TrackPacket::Speed(Form::read_json(alloc, node)?)),
            41 => Ok(TrackPacket::Transition(Form::read_json(alloc, node)?)),
            _ => Ok(TrackPacket::Raw(Form::read_json(alloc, node)?)),
        }
    }
}
