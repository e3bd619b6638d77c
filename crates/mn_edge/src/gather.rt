// Files that grow by many small pieces, written by few appends.
ghost use Rattle.std.specs.Prelude.{◌≡◌, ◌+◌, ◌<◌, ◌≤◌, List, ℕ, [], None, Some, length, replicate, IfErr, IfOk, OnOk, OnErr, IsTrue};
ghost use Rattle.std.specs.Option.{option_map};
ghost use Rattle.mn_edge.specs.Faults.{Counted, CountedUnless};
ghost use Rattle.mn_edge.specs.Kept.{BeginsOn, Framed, HoldsOn, Lacking, filled, grown, held_bytes, most_held, none_held, with_piece};
ghost use Rattle.mn_edge.specs.Memory.{after_calls, all_differ};
ghost use Rattle.mn_edge.specs.Written.{texts};

use crate::held::Held;
use crate::line::Piece;
use crate::{DeviceBad, Line, Shelf};
use std::alloc::{AllocError, Global};
use std::marker::Model;

/// Bytes that wait to be appended to files: over all of them at most 65,536, and where there are more than 64 files at most
/// 1,048,576. The files go by their numbers, from 0; each call is given their names.
///
/// A contract speaks of a file's contents: its bytes on the shelf, and behind them those that are held for it.
#[derive(Drop)]
pub struct Gather {
    held: Held,
}

impl Model for Gather {
    ghost use Rattle.std.specs.Prelude.{List, ℕ};

    ghost Value = { List (List ℕ) };

    ghost view = { λ g. g.held };
}

impl Gather {
    /// Nothing is held for any of so many files.
    pub fn new(alloc: Global, files: u32) -> Result<Gather, AllocError>
        ensures { IfOk result (λ gather. gather ≡ replicate files []) }
    {
        Ok(Gather {
            held: Held::new(alloc, files as usize)?,
        })
    }

    /// The file grows by the piece, on the shelf or in what is held for it. Only where the held bytes and the
    /// piece pass the most that are held is anything appended. After a refusal nothing is held any more, and each
    /// file is a first part of what it would hold.
    pub fn put<S: Shelf>(
        &mut self,
        shelf: &mut S,
        names: &[String],
        file: u32,
        piece: &[u8],
    ) -> Result<(), DeviceBad>
        requires file { file < length self.old }
        requires names { length names.now ≡ length self.old }
        requires differ { IsTrue (all_differ (texts names.now)) }
        ensures grown { OnOk result ((contents : ℕ → List ℕ) →
            HoldsOn (texts names.now) contents self.old (S.files shelf.old) →
            HoldsOn (texts names.now) (grown contents file piece.now) self.new (S.files shelf.new)) }
        ensures part { OnErr result ((contents : ℕ → List ℕ) →
            HoldsOn (texts names.now) contents self.old (S.files shelf.old) →
            BeginsOn (texts names.now) (grown contents file piece.now) (S.files shelf.new)) }
        ensures framed { Framed (texts names.now) (S.files shelf.old) (S.files shelf.new) }

        // Where there is room for the piece, the shelf isn't called, and the piece is held.
        ensures untouched { held_bytes self.old + length piece.now ≤ most_held (length self.old) → shelf.new ≡ shelf.old }
        ensures held { OnOk result (held_bytes self.old + length piece.now ≤ most_held (length self.old) →
            self.new ≡ with_piece self.old file piece.now) }
        ensures room { held_bytes self.new ≤ most_held (length self.old) }
        ensures files { length self.new ≡ length self.old }
        ensures dropped { OnErr result (self.new ≡ none_held self.old) }
        ensures writes { CountedUnless (Lacking (texts names.now) (S.files shelf.old))
            (S.write_faults shelf.old) (S.write_faults shelf.new) result }
        ensures reads { S.read_faults shelf.new ≡ S.read_faults shelf.old }
    {
        let mut rest = piece;
        while rest.len() > self.held.room() {
            let (front, back) = rest.split_at(self.held.room());
            self.hold(file as usize, front)?;
            self.end(shelf, names)?;
            rest = back;
        }
        self.hold(file as usize, rest)
    }

    /// The same by a line, which is written right behind what is held.
    #[inline(always)]
    pub fn put_line<S: Shelf, L: Line>(
        &mut self,
        shelf: &mut S,
        names: &[String],
        file: u32,
        line: &L,
    ) -> Result<(), DeviceBad>
        requires file { file < length self.old }
        requires names { length names.now ≡ length self.old }
        requires differ { IsTrue (all_differ (texts names.now)) }
        ensures grown { OnOk result ((contents : ℕ → List ℕ) →
            HoldsOn (texts names.now) contents self.old (S.files shelf.old) →
            HoldsOn (texts names.now) (grown contents file (L.text line.now)) self.new (S.files shelf.new)) }
        ensures part { OnErr result ((contents : ℕ → List ℕ) →
            HoldsOn (texts names.now) contents self.old (S.files shelf.old) →
            BeginsOn (texts names.now) (grown contents file (L.text line.now)) (S.files shelf.new)) }
        ensures framed { Framed (texts names.now) (S.files shelf.old) (S.files shelf.new) }

        // Where there is room for the line, the shelf isn't called, and the line is held.
        ensures untouched { held_bytes self.old + length (L.text line.now) ≤ most_held (length self.old) → shelf.new ≡ shelf.old }
        ensures held { OnOk result (held_bytes self.old + length (L.text line.now) ≤ most_held (length self.old) →
            self.new ≡ with_piece self.old file (L.text line.now)) }
        ensures room { held_bytes self.new ≤ most_held (length self.old) }
        ensures files { length self.new ≡ length self.old }
        ensures dropped { OnErr result (self.new ≡ none_held self.old) }
        ensures writes { CountedUnless (Lacking (texts names.now) (S.files shelf.old))
            (S.write_faults shelf.old) (S.write_faults shelf.new) result }
        ensures reads { S.read_faults shelf.new ≡ S.read_faults shelf.old }
    {
        match self.held.push(file as usize, line)? {
            None => Ok(()),
            Some(text) => self.put(shelf, names, file, &text),
        }
    }

    /// Appends all that is held, by one append for each file that has any, in the order of the files. Nothing is
    /// held any more, also after a refusal, when each file is a first part of what it would hold.
    pub fn end<S: Shelf>(&mut self, shelf: &mut S, names: &[String]) -> Result<(), DeviceBad>
        requires names { length names.now ≡ length self.old }
        requires differ { IsTrue (all_differ (texts names.now)) }
        ensures ended { self.new ≡ none_held self.old }
        ensures kept { OnOk result ((contents : ℕ → List ℕ) →
            HoldsOn (texts names.now) contents self.old (S.files shelf.old) →
            HoldsOn (texts names.now) contents self.new (S.files shelf.new)) }
        ensures part { OnErr result ((contents : ℕ → List ℕ) →
            HoldsOn (texts names.now) contents self.old (S.files shelf.old) →
            BeginsOn (texts names.now) contents (S.files shelf.new)) }
        ensures framed { Framed (texts names.now) (S.files shelf.old) (S.files shelf.new) }
        ensures untouched { held_bytes self.old ≡ 0 → shelf.new ≡ shelf.old }
        ensures writes { CountedUnless (Lacking (texts names.now) (S.files shelf.old))
            (S.write_faults shelf.old) (S.write_faults shelf.new) result }
        ensures reads { S.read_faults shelf.new ≡ S.read_faults shelf.old }
        ensures one { OnOk result (S.calls shelf.new ≡ option_map (after_calls (filled self.old)) (S.calls shelf.old)) }
        ensures ends { IfErr result (λ e. S.refusal shelf.new ≡ Some e) }
    {
        let done = append_held(&self.held, shelf, names);
        self.held.clear();
        done
    }

    /// Holds a piece for which there is room. After running out of memory nothing is held.
    fn hold(&mut self, file: usize, piece: &[u8]) -> Result<(), DeviceBad>
        requires file { file < length self.old }
        requires room { held_bytes self.old + length piece.now ≤ most_held (length self.old) }
        ensures ok { OnOk result (self.new ≡ with_piece self.old file piece.now) }
        ensures err { OnErr result (self.new ≡ none_held self.old) }
        ensures cause { Counted None None result }
    {
        if piece.is_empty() {
            return Ok(());
        }
        self.held.push(file, &Piece { bytes: piece })?;
        Ok(())
    }
}

/// Appends what is held for each file. What is held stays.
fn append_held<S: Shelf>(held: &Held, shelf: &mut S, names: &[String]) -> Result<(), DeviceBad>
    requires names { length names.now ≡ length held.now }
    requires differ { IsTrue (all_differ (texts names.now)) }
    ensures kept { OnOk result ((contents : ℕ → List ℕ) →
        HoldsOn (texts names.now) contents held.now (S.files shelf.old) →
        HoldsOn (texts names.now) contents (none_held held.now) (S.files shelf.new)) }
    ensures part { OnErr result ((contents : ℕ → List ℕ) →
        HoldsOn (texts names.now) contents held.now (S.files shelf.old) →
        BeginsOn (texts names.now) contents (S.files shelf.new)) }
    ensures framed { Framed (texts names.now) (S.files shelf.old) (S.files shelf.new) }
    ensures untouched { held_bytes held.now ≡ 0 → shelf.new ≡ shelf.old }
    ensures writes { CountedUnless (Lacking (texts names.now) (S.files shelf.old))
        (S.write_faults shelf.old) (S.write_faults shelf.new) result }
    ensures reads { S.read_faults shelf.new ≡ S.read_faults shelf.old }
    ensures one { OnOk result (S.calls shelf.new ≡ option_map (after_calls (filled held.now)) (S.calls shelf.old)) }
    ensures ends { IfErr result (λ e. S.refusal shelf.new ≡ Some e) }
{
    for (file, name) in names.iter().enumerate() {
        let bytes = held.bytes(file);
        if !bytes.is_empty() {
            shelf.append(name.as_str(), bytes)?;
        }
    }
    Ok(())
}
