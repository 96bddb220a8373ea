//! What a session was handed to tell of changes.
ghost use Rattle.std.specs.Prelude.{◌≡◌, ◌<◌, ◌≤◌, ℕ, List, [], IfOk, OnOk, length, map, slice_get, unwrap_or};
ghost use Rattle.lisp_data.specs.Name.{Name};
ghost use Rattle.clos_watch.specs.Handed.{at_place, place_of};
ghost use Rattle.clos_watch.specs.Watching.{heard_after, times_told, watching};
ghost use Rattle.clos_watch.specs.declared.notice.Notice.{Notice};

use crate::dependent::Dependent;
use crate::notice::Notice;
use crate::watchers::{Handed, Watchers, heard};
use lisp_data::Name;
use std::alloc::{AllocError, Global};

/// Dependents, which programs add to metaobjects by their names. What each has heard is told by its place.
pub trait Dependents: Drop {
    ghost names: { Self → List Name };

    ghost told: { Self → List (List Notice) };

    ghost room: { Self → ℕ → ℕ };

    /// Their names, by their places.
    fn copy_names(&self, alloc: Global) -> Result<Vec<Name>, AllocError>
        ensures { IfOk result (λ r. r.items ≡ names self.now) };

    /// What the one at this place heard, in order.
    fn heard(&self, place: usize) -> &[Notice]
        ensures { result.now ≡ unwrap_or (slice_get (told self.now) place) [] };

    /// Has each have room for all of these notices that it hears.
    fn prepare_all(&mut self, watchers: &Watchers, notices: &[Notice]) -> Result<(), AllocError>
        ensures ok { OnOk result ((p : ℕ) → p < length (names self.new) → times_told (watching watchers.now) notices.now p ≤ room
            self.new p) }
        ensures names { names self.new ≡ names self.old }
        ensures told { told self.new ≡ told self.old }
        ensures room { (p : ℕ) → room self.old p ≤ room self.new p };

    /// Tells these notices, one after another, to those that hear them. What they answer is dropped.
    fn tell_all(&mut self, watchers: &Watchers, notices: &[Notice])
        requires { (p : ℕ) → p < length (names self.old) → times_told (watching watchers.now) notices.now p ≤ room self.old p }
        ensures names { names self.new ≡ names self.old }
        ensures told { told self.new ≡ heard_after (watching watchers.now) notices.now (told self.old) };
}

/// Of two with one name the first counts.
impl Dependents for Vec<Handed> {
    ghost names = { λ all. map (λ d. d.0) all.items };

    ghost told = { λ all. map (λ d. (Dependent-box d.1).told d.1.value) all.items };

    ghost room = { λ all p. at_place (λ d. (Dependent-box d.1).room d.1.value) 0 (slice_get all.items p) };

    fn copy_names(&self, alloc: Global) -> Result<Vec<Name>, AllocError> {
        copy_names(alloc, self.as_slice())
    }

    fn heard(&self, place: usize) -> &[Notice] {
        match self.get(place) {
            Some(handed) => heard(handed),
            None => &[],
        }
    }

    fn prepare_all(&mut self, watchers: &Watchers, notices: &[Notice]) -> Result<(), AllocError> {
        watchers.prepare_all(self.as_mut_slice(), notices)
    }

    fn tell_all(&mut self, watchers: &Watchers, notices: &[Notice]) {
        let mut left = notices;
        while let Some((notice, others)) = left.split_first() {
            watchers.tell_all(self.as_mut_slice(), notice);
            left = others;
        }
    }
}

fn copy_names(alloc: Global, handed: &[Handed]) -> Result<Vec<Name>, AllocError>
    ensures { IfOk result (λ r. r.items ≡ map (λ d. d.0) handed.now) }
{
    let mut names = Vec::new(alloc);
    let mut left = handed;
    while let Some((first, others)) = left.split_first() {
        names.push(first.0.copy()?)?;
        left = others;
    }
    Ok(names)
}

/// The place of the first dependent of this name, if there is one.
#[tactic(auto, using(crate::proofs::AtPlace::place_found, crate::proofs::AtPlace::place_later))]
pub fn place_of(names: &[Name], name: &Name) -> Option<usize>
    ensures { result ≡ place_of names.now name.now }
{
    let mut left = names;
    let mut place = 0;
    while let Some((first, others)) = left.split_first() {
        if first.is(name) {
            return Some(place);
        }
        left = others;
        place += 1;
    }
    None
}
