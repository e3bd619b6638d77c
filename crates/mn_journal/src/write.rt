//! From an entry to its line.
ghost use Rattle.std.specs.Prelude.{◌≡◌, ◌+◌, ◌<◌, ◌≤◌, ◌++◌, ◌∷◌, [], IfSome, OnOk, OnErr, length, take, true, slice_index_or, codes, if◌then◌else◌};
ghost use Rattle.mn_journal.specs.Prelude.{Forth, sender, receiver, node_text, vrf_text, site_text, from_text, to_text, step_words, damage_words, prefix_text, number_text, rt_text, wiring_of, Ldp, Bgp, Carry, Inject, damage_fits, entry_fits, fits};
ghost use Rattle.mn_journal.specs.Lines.{entry_words, joined, line_of, spaced, text_of, texts, Grew};

use crate::text::{prefix_text, target_text};
use itoa::Buffer;
use mn_base::{LinkNo, NodeNo, Rt, SiteNo, VrfNo};
use mn_entry::damage_of;
use mn_laying::{lay, lay_name, lay_number};
use mn_prefix::Prefix;
use mn_topo::{Damage, Damaged, JournalEntry, Step, Topology};
use mn_wiring::Dir;
use std::alloc::AllocError;

/// Copies pieces, one behind another, over as many bytes as they have.
#[inline(always)]
fn lay_all(bytes: &mut [u8], pieces: &[&[u8]])
    requires { length bytes.old ≡ length (joined (texts pieces.now)) }
    ensures { bytes.new ≡ joined (texts pieces.now) }
{
    let mut at = 0;
    for piece in pieces {
        at = lay(bytes, at, piece);
    }
}

/// Where pieces end that begin at a place; none where no number tells it.
#[inline(always)]
fn end_of(from: usize, pieces: &[&[u8]]) -> Option<usize>
    ensures { IfSome result (λ end. end ≡ from + length (joined (texts pieces.now))) }
{
    let mut end = from;
    for piece in pieces {
        end = end.checked_add(piece.len())?;
    }
    Some(end)
}

/// Appends pieces, for all of which room is made once; an `Err` none of them.
#[inline(always)]
fn put_pieces(out: &mut Vec<u8>, pieces: &[&[u8]]) -> Result<(), AllocError>
    ensures ok { OnOk result (out.new.items ≡ out.old.items ++ joined (texts pieces.now)) }
    ensures grew { Grew out.old.items out.new.items }
{
    let before = out.len();
    let Some(end) = end_of(before, pieces) else {
        return Err(AllocError);
    };
    out.resize(end, 0)?;
    lay_all(&mut out[before..], pieces);
    Ok(())
}

fn node_name(topology: &Topology, node: NodeNo) -> &[u8]
    requires { node.0 < length topology.now.loopbacks }
    ensures { result.now ≡ node_text topology.now node }
{
    topology.node_name(node)
}

fn vrf_name(topology: &Topology, vrf: VrfNo) -> &[u8]
    requires { vrf.0 < length topology.now.vrfs }
    ensures { result.now ≡ vrf_text topology.now vrf }
{
    topology.vrf_name(vrf)
}

fn site_name(topology: &Topology, site: SiteNo) -> &[u8]
    requires { site.0 < length topology.now.sites }
    ensures { result.now ≡ site_text topology.now site }
{
    topology.site_name(site)
}

/// The names of the node that sends in a direction of a link, and of the one that receives.
fn ends(topology: &Topology, link: LinkNo, direction: Dir) -> (&[u8], &[u8])
    requires { link.0 < length topology.now.links }
    ensures from { result.0.now ≡ from_text topology.now link direction }
    ensures to { result.1.now ≡ to_text topology.now link direction }
{
    topology.laws();
    let ends = &topology.links()[link.0 as usize];
    let (from, to) = match direction {
        Dir::Forth => (ends.a, ends.b),
        Dir::Back => (ends.b, ends.a),
    };
    (topology.node_name(from), topology.node_name(to))
}

/// Two words that a line begins with, behind its tick.
#[derive(Clone, Copy)]
struct Words<'w>(&'w [u8], &'w [u8]);

/// Two words, and the two nodes of a link.
fn put_link(
    out: &mut Vec<u8>,
    topology: &Topology,
    words: Words<'_>,
    link: LinkNo,
    direction: Dir,
) -> Result<(), AllocError>
    requires { link.0 < length topology.now.links }
    ensures ok { OnOk result (out.new.items ≡ out.old.items ++ spaced
        (words.entry.0.now ∷ words.entry.1.now ∷ from_text topology.now link direction ∷ to_text topology.now link direction ∷ [])) }
    ensures grew { Grew out.old.items out.new.items }
{
    let (from, to) = ends(topology, link, direction);
    put_pieces(out, &[b" ", words.0, b" ", words.1, b" ", from, b" ", to])
}

/// Two words, and two nodes.
fn put_nodes(
    out: &mut Vec<u8>,
    topology: &Topology,
    words: Words<'_>,
    a: NodeNo,
    b: NodeNo,
) -> Result<(), AllocError>
    requires { (a.0 < length topology.now.loopbacks) × (b.0 < length topology.now.loopbacks) }
    ensures ok { OnOk result (out.new.items ≡ out.old.items ++ spaced
        (words.entry.0.now ∷ words.entry.1.now ∷ node_text topology.now a ∷ node_text topology.now b ∷ [])) }
    ensures grew { Grew out.old.items out.new.items }
{
    put_pieces(
        out,
        &[
            b" ",
            words.0,
            b" ",
            words.1,
            b" ",
            node_name(topology, a),
            b" ",
            node_name(topology, b),
        ],
    )
}

/// `route`, a word, a site and a prefix.
fn put_route(
    out: &mut Vec<u8>,
    topology: &Topology,
    word: &[u8],
    site: SiteNo,
    prefix: Prefix,
) -> Result<(), AllocError>
    requires { site.0 < length topology.now.sites }
    ensures ok { OnOk result (out.new.items ≡ out.old.items ++ spaced
        (codes "route" ∷ word.now ∷ site_text topology.now site ∷ prefix_text prefix ∷ [])) }
    ensures grew { Grew out.old.items out.new.items }
{
    let text = prefix_text(prefix);
    put_pieces(
        out,
        &[
            b" ",
            b"route",
            b" ",
            word,
            b" ",
            site_name(topology, site),
            b" ",
            text.as_slice(),
        ],
    )
}

/// That a VRF gets a route target or, where it isn't added, loses one.
#[derive(Clone, Copy)]
struct TargetChange(VrfNo, bool, Rt);

/// `site`, a word and a site.
fn put_site(
    out: &mut Vec<u8>,
    topology: &Topology,
    word: &[u8],
    site: SiteNo,
) -> Result<(), AllocError>
    requires { site.0 < length topology.now.sites }
    ensures ok { OnOk result (out.new.items ≡ out.old.items ++ spaced
        (codes "site" ∷ word.now ∷ site_text topology.now site ∷ [])) }
    ensures grew { Grew out.old.items out.new.items }
{
    put_pieces(
        out,
        &[b" ", b"site", b" ", word, b" ", site_name(topology, site)],
    )
}

/// A word, whether the target is added, a VRF and the target.
fn put_target(
    out: &mut Vec<u8>,
    topology: &Topology,
    word: &[u8],
    change: TargetChange,
) -> Result<(), AllocError>
    requires { change.0.0 < length topology.now.vrfs }
    ensures ok { OnOk result (out.new.items ≡ out.old.items ++ spaced
        (word.now ∷ (if change.1 then codes "add" else codes "del") ∷ vrf_text topology.now change.0 ∷ rt_text change.2 ∷ [])) }
    ensures grew { Grew out.old.items out.new.items }
{
    let TargetChange(vrf, on, target) = change;
    let text = target_text(target);
    let whether = if on { "add" } else { "del" };
    put_pieces(
        out,
        &[
            b" ",
            word,
            b" ",
            whether.as_bytes(),
            b" ",
            vrf_name(topology, vrf),
            b" ",
            text.as_slice(),
        ],
    )
}

/// A frame that flies in a direction of a link, by its place there.
#[derive(Clone, Copy)]
struct FlyingFrame(LinkNo, Dir, u32);

/// A word, the sender and the receiver of a frame, and its place.
fn put_frame(
    out: &mut Vec<u8>,
    topology: &Topology,
    word: &[u8],
    frame: FlyingFrame,
) -> Result<(), AllocError>
    requires { frame.0.0 < length topology.now.links }
    ensures ok { OnOk result (out.new.items ≡ out.old.items ++ spaced
        (word.now ∷ from_text topology.now frame.0 frame.1 ∷ to_text topology.now frame.0 frame.1 ∷ number_text frame.2 ∷ [])) }
    ensures grew { Grew out.old.items out.new.items }
{
    let FlyingFrame(link, direction, place) = frame;
    let (from, to) = ends(topology, link, direction);
    let mut digits = Buffer::new();
    put_pieces(
        out,
        &[
            b" ",
            word,
            b" ",
            from,
            b" ",
            to,
            b" ",
            digits.format(place).as_bytes(),
        ],
    )
}

/// `inject`, a site and the number of a record.
fn put_record(
    out: &mut Vec<u8>,
    topology: &Topology,
    site: SiteNo,
    number: u32,
) -> Result<(), AllocError>
    requires { site.0 < length topology.now.sites }
    ensures ok { OnOk result (out.new.items ≡ out.old.items ++ spaced
        (codes "inject" ∷ site_text topology.now site ∷ number_text number ∷ [])) }
    ensures grew { Grew out.old.items out.new.items }
{
    let mut digits = Buffer::new();
    put_pieces(
        out,
        &[
            b" ",
            b"inject",
            b" ",
            site_name(topology, site),
            b" ",
            digits.format(number).as_bytes(),
        ],
    )
}

/// `tick` and a number of ticks.
fn put_tick(out: &mut Vec<u8>, ticks: u32) -> Result<(), AllocError>
    ensures ok { OnOk result (out.new.items ≡ out.old.items ++ spaced (codes "tick" ∷ number_text ticks ∷ [])) }
    ensures grew { Grew out.old.items out.new.items }
{
    let mut digits = Buffer::new();
    put_pieces(out, &[b" ", b"tick", b" ", digits.format(ticks).as_bytes()])
}

/// The words of a step, each after a space.
fn put_step_words(out: &mut Vec<u8>, topology: &Topology, step: &Step) -> Result<(), AllocError>
    requires { fits topology.now step.now ≡ true }
    ensures ok { OnOk result (out.new.items ≡ out.old.items ++ spaced (step_words topology.now step.now)) }
    ensures grew { Grew out.old.items out.new.items }
{
    topology.laws();
    match *step {
        Step::LinkUp(link) => put_link(out, topology, Words(b"link", b"up"), link, Dir::Forth),
        Step::LinkDown(link) => put_link(out, topology, Words(b"link", b"down"), link, Dir::Forth),
        Step::Learn(node, link) => {
            let name = node_name(topology, node);
            put_link(out, topology, Words(b"learn", name), link, Dir::Forth)
        }
        Step::LdpAdmin(link, on) => {
            let whether = if on { "on" } else { "off" };
            let words = Words(b"ldp", whether.as_bytes());
            put_link(out, topology, words, link, Dir::Forth)
        }
        Step::HearLdp(link, direction) => {
            put_link(out, topology, Words(b"hear", b"ldp"), link, direction)
        }
        Step::BgpUp(a, b) => put_nodes(out, topology, Words(b"bgp", b"up"), a, b),
        Step::BgpDown(a, b) => put_nodes(out, topology, Words(b"bgp", b"down"), a, b),
        Step::HearBgp(a, b) => put_nodes(out, topology, Words(b"hear", b"bgp"), a, b),
        Step::AddRoute(site, prefix) => put_route(out, topology, b"add", site, prefix),
        Step::DelRoute(site, prefix) => put_route(out, topology, b"del", site, prefix),
        Step::Import(vrf, on, target) => {
            put_target(out, topology, b"import", TargetChange(vrf, on, target))
        }
        Step::Export(vrf, on, target) => {
            put_target(out, topology, b"export", TargetChange(vrf, on, target))
        }
        Step::Attach(site) => put_site(out, topology, b"up", site),
        Step::Detach(site) => put_site(out, topology, b"down", site),
        Step::Inject(site, number) => put_record(out, topology, site, number),
        Step::Carry(link, direction, place) => {
            put_frame(out, topology, b"carry", FlyingFrame(link, direction, place))
        }
        Step::Lose(link, direction, place) => {
            put_frame(out, topology, b"lose", FlyingFrame(link, direction, place))
        }
        Step::Tick(ticks) => put_tick(out, ticks),
    }
}

/// `damage ldp`, the sender and the receiver of a message, and the number of a record.
fn put_damaged_ldp(
    out: &mut Vec<u8>,
    topology: &Topology,
    link: LinkNo,
    direction: Dir,
    number: u32,
) -> Result<(), AllocError>
    requires { link.0 < length topology.now.links }
    ensures ok { OnOk result (out.new.items ≡ out.old.items ++ spaced (damage_words topology.now (Ldp link direction number))) }
    ensures grew { Grew out.old.items out.new.items }
{
    let (from, to) = ends(topology, link, direction);
    let mut digits = Buffer::new();
    put_pieces(
        out,
        &[
            b" ",
            b"damage",
            b" ",
            b"ldp",
            b" ",
            from,
            b" ",
            to,
            b" ",
            digits.format(number).as_bytes(),
        ],
    )
}

/// `damage bgp`, the teller and the hearer of a message, and the number of a record.
fn put_damaged_bgp(
    out: &mut Vec<u8>,
    topology: &Topology,
    from: NodeNo,
    to: NodeNo,
    number: u32,
) -> Result<(), AllocError>
    requires { (from.0 < length topology.now.loopbacks) × (to.0 < length topology.now.loopbacks) }
    ensures ok { OnOk result (out.new.items ≡ out.old.items ++ spaced (damage_words topology.now (Bgp from to number))) }
    ensures grew { Grew out.old.items out.new.items }
{
    let mut digits = Buffer::new();
    put_pieces(
        out,
        &[
            b" ",
            b"damage",
            b" ",
            b"bgp",
            b" ",
            node_name(topology, from),
            b" ",
            node_name(topology, to),
            b" ",
            digits.format(number).as_bytes(),
        ],
    )
}

/// The words of a damage, each after a space.
fn put_damage_words(
    out: &mut Vec<u8>,
    topology: &Topology,
    damage: &Damage,
) -> Result<(), AllocError>
    requires { damage_fits topology.now damage.now ≡ true }
    ensures ok { OnOk result (out.new.items ≡ out.old.items ++ spaced (damage_words topology.now damage.now)) }
    ensures grew { Grew out.old.items out.new.items }
{
    topology.laws();
    match *damage {
        Damage::Ldp(link, direction, number) => {
            put_damaged_ldp(out, topology, link, direction, number)
        }
        Damage::Bgp(from, to, number) => put_damaged_bgp(out, topology, from, to, number),
    }
}

/// The words of an entry, each after a space.
fn put_entry_words(
    out: &mut Vec<u8>,
    topology: &Topology,
    entry: &JournalEntry,
) -> Result<(), AllocError>
    requires { entry_fits topology.now entry.now ≡ true }
    ensures ok { OnOk result (out.new.items ≡ out.old.items ++ spaced (entry_words topology.now entry.now)) }
    ensures grew { Grew out.old.items out.new.items }
{
    match damage_of(entry) {
        Some(damage) => put_damage_words(out, topology, &damage),
        None => put_step_words(out, topology, &entry.step),
    }
}

/// What the line of an entry says, without its line feed.
pub(crate) fn put_text(
    out: &mut Vec<u8>,
    topology: &Topology,
    entry: &JournalEntry,
) -> Result<(), AllocError>
    requires { entry_fits topology.now entry.now ≡ true }
    ensures ok { OnOk result (out.new.items ≡ out.old.items ++ text_of topology.now entry.now) }
    ensures grew { Grew out.old.items out.new.items }
{
    let mut digits = Buffer::new();
    out.extend_from_slice(digits.format(entry.tick).as_bytes())?;
    put_entry_words(out, topology, entry)
}

/// The line of any entry, in three parts.
fn put_parts(out: &mut Vec<u8>, topology: &Topology, entry: &JournalEntry) -> Result<(), AllocError>
    requires { entry_fits topology.now entry.now ≡ true }
    ensures ok { OnOk result (out.new.items ≡ out.old.items ++ line_of topology.now entry.now) }
    ensures grew { Grew out.old.items out.new.items }
{
    put_text(out, topology, entry)?;
    out.push(b'\n')?;
    Ok(())
}

/// Composes the line of a carry from a place on, and answers where it ends.
#[inline(always)]
fn lay_carry(
    bytes: &mut [u8],
    at: usize,
    topology: &Topology,
    tick: u64,
    frame: FlyingFrame,
) -> usize
    requires there { frame.0.0 < length topology.now.links }
    requires room { at + 128 ≤ length bytes.old }
    ensures most { result ≤ at + 128 }
    ensures laid { take result bytes.new ≡ take at bytes.old ++
        ((number_text tick ++ spaced (step_words topology.now (Carry frame.0 frame.1 frame.2))) ++ 10 ∷ []) }
{
    topology.laws();
    let FlyingFrame(link, direction, place) = frame;
    let (from, to) = ends(topology, link, direction);
    let after_tick = lay_number(bytes, at, tick);
    let after_carry = lay(bytes, after_tick, b" carry ");
    let after_from = lay_name(bytes, after_carry, from);
    let after_space = lay(bytes, after_from, b" ");
    let after_to = lay_name(bytes, after_space, to);
    let after_other = lay(bytes, after_to, b" ");
    let end = lay_number(bytes, after_other, place as u64);
    lay(bytes, end, b"\n")
}

/// The line of a carry, in room for any of them: most lines of a long run are carries.
fn put_carry(
    out: &mut Vec<u8>,
    topology: &Topology,
    tick: u64,
    frame: FlyingFrame,
) -> Result<(), AllocError>
    requires { frame.0.0 < length topology.now.links }
    ensures ok { OnOk result (out.new.items ≡ out.old.items ++
        ((number_text tick ++ spaced (step_words topology.now (Carry frame.0 frame.1 frame.2))) ++ 10 ∷ [])) }
    ensures grew { Grew out.old.items out.new.items }
{
    let before = out.len();
    out.resize(before + 128, 0)?;
    let bytes = &mut out[..];
    let end = lay_carry(bytes, before, topology, tick, frame);
    out.truncate(end);
    Ok(())
}

/// A packet that is sent at a site: that of the record of this number, from 1.
#[derive(Clone, Copy)]
struct Injection(SiteNo, u32);

/// Composes the line of a packet that is sent from a place on, and answers where it ends.
#[inline(always)]
fn lay_inject(
    bytes: &mut [u8],
    at: usize,
    topology: &Topology,
    tick: u64,
    injection: Injection,
) -> usize
    requires there { injection.0.0 < length topology.now.sites }
    requires room { at + 96 ≤ length bytes.old }
    ensures most { result ≤ at + 96 }
    ensures laid { take result bytes.new ≡ take at bytes.old ++
        ((number_text tick ++ spaced (step_words topology.now (Inject injection.0 injection.1))) ++ 10 ∷ []) }
{
    topology.laws();
    let Injection(site, number) = injection;
    let after_tick = lay_number(bytes, at, tick);
    let after_inject = lay(bytes, after_tick, b" inject ");
    let after_site = lay_name(bytes, after_inject, site_name(topology, site));
    let after_space = lay(bytes, after_site, b" ");
    let end = lay_number(bytes, after_space, number as u64);
    lay(bytes, end, b"\n")
}

/// The line of a packet that is sent, in room for any of them: most other lines are of these.
fn put_inject(
    out: &mut Vec<u8>,
    topology: &Topology,
    tick: u64,
    injection: Injection,
) -> Result<(), AllocError>
    requires { injection.0.0 < length topology.now.sites }
    ensures ok { OnOk result (out.new.items ≡ out.old.items ++
        ((number_text tick ++ spaced (step_words topology.now (Inject injection.0 injection.1))) ++ 10 ∷ [])) }
    ensures grew { Grew out.old.items out.new.items }
{
    let before = out.len();
    out.resize(before + 96, 0)?;
    let bytes = &mut out[..];
    let end = lay_inject(bytes, before, topology, tick, injection);
    out.truncate(end);
    Ok(())
}

fn put_line(out: &mut Vec<u8>, topology: &Topology, entry: &JournalEntry) -> Result<(), AllocError>
    requires { entry_fits topology.now entry.now ≡ true }
    ensures ok { OnOk result (out.new.items ≡ out.old.items ++ line_of topology.now entry.now) }
    ensures grew { Grew out.old.items out.new.items }
{
    match (entry.step, entry.damaged) {
        (Step::Carry(link, direction, place), Damaged::Undamaged) => {
            let frame = FlyingFrame(link, direction, place);
            put_carry(out, topology, entry.tick, frame)
        }
        (Step::Inject(site, number), Damaged::Undamaged) => {
            let injection = Injection(site, number);
            put_inject(out, topology, entry.tick, injection)
        }
        _ => put_parts(out, topology, entry),
    }
}

/// Appends the line of an entry: of its step, or of the damage that made it. An `Err` appends nothing.
pub fn put_entry(
    out: &mut Vec<u8>,
    topology: &Topology,
    entry: &JournalEntry,
) -> Result<(), AllocError>
    requires { entry_fits topology.now entry.now ≡ true }
    ensures ok { OnOk result (out.new.items ≡ out.old.items ++ line_of topology.now entry.now) }
    ensures err { OnErr result (out.new.items ≡ out.old.items) }
{
    let before = out.len();
    let put = put_line(out, topology, entry);
    if put.is_err() {
        out.truncate(before);
    }
    put
}
