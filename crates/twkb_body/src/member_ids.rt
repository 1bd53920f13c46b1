//! The ids of the members of a geometry.
ghost use Rattle.std.specs.Prelude.{◌≡◌, ◌≤◌, ◌++◌, ◌∷◌, [], if◌then◌else◌, is_some, true, Some, None, IfOk, OnOk};
ghost use Rattle.std.specs.Prelude.{OnErr, length};
ghost use Rattle.twkb_tree.specs.Rows.{first_id, other_ids};
ghost use Rattle.twkb_body.specs.Running.{IdsTaken, IdsStop};

use crate::numbers::{FrontNumber, front_number};
use std::alloc::{AllocError, Global};
use twkb_num::unzigzag;

/// The ids of the members, if they have any: while they are read, all so far; then those from the
/// open member on.
#[derive(Debug, Drop)]
pub struct MemberIds {
    // While members are read the last first, so that the first can leave.
    ids: Vec<i64>,
    has_ids: bool,
}

impl MemberIds {
    ghost use Rattle.twkb_body.specs.Outline.{ids_of, ids_read};

    /// Makes the ids of members that have none. Takes no memory.
    pub fn new(alloc: Global) -> MemberIds
        ensures none { ids_of result ≡ None }
    {
        MemberIds {
            ids: Vec::new(alloc),
            has_ids: false,
        }
    }

    /// Forgets all ids, and keeps their memory for others. From now on members have ids exactly if
    /// `has_ids` is true. Takes no memory.
    #[inline(always)]
    pub fn restart(&mut self, has_ids: bool)
        ensures read { ids_read self.new ≡ [] }
        ensures ids { ids_of self.new ≡ (if has_ids then Some [] else None) }
        ensures has { self.new.has_ids ≡ has_ids }
    {
        self.ids.clear();
        self.has_ids = has_ids;
    }

    /// Appends the id of a further member, after `restart` and before `begin`. Takes memory; an
    /// `Err` changes nothing.
    pub fn push(&mut self, id: i64) -> Result<(), AllocError>
        ensures pushed { OnOk result (ids_read self.new ≡ ids_read self.old ++ id ∷ []) }
        ensures same { OnErr result (ids_read self.new ≡ ids_read self.old) }
        ensures has { self.new.has_ids ≡ self.old.has_ids }
    {
        self.ids.push(id)?;
        Ok(())
    }

    /// Appends the ids that the zigzag varints at the start of the bytes spell, at most `most`, and
    /// returns how many bytes they have. Stops before a number that is cut or too long. Takes
    /// memory; after an `Err` the ids appended so far stay.
    #[inline(always)]
    pub fn take(&mut self, bytes: &[u8], most: u64) -> Result<usize, AllocError>
        ensures within { IfOk result (λ used. used ≤ length bytes.now) }
        ensures taken { IfOk result (λ used. IdsTaken (ids_read self.old) most bytes.now used (ids_read self.new)) }
        ensures memory { OnErr result (IdsStop (ids_read self.old) most bytes.now) }
        ensures has { self.new.has_ids ≡ self.old.has_ids }
    {
        let mut used = 0;
        let mut left = most;
        while left > 0 {
            let FrontNumber::Complete { number, width } = front_number(&bytes[used..]) else {
                return Ok(used);
            };
            self.push(unzigzag(number))?;
            left -= 1;
            used += width;
        }
        Ok(used)
    }

    /// The number of ids that are kept: those read so far, or those from the open member on. Takes
    /// no memory.
    #[inline(always)]
    pub fn count(&self) -> u64
        ensures { result ≡ length (ids_read self.now) }
    {
        self.ids.len() as u64
    }

    /// Whether members have ids. Takes no memory.
    #[inline(always)]
    pub fn has_ids(&self) -> bool
        ensures { result ≡ self.now.has_ids }
    {
        self.has_ids
    }

    /// Ends the reading of ids: members have those that were read, and the first member is the open
    /// one. Takes no memory.
    pub fn begin(&mut self)
        ensures { ids_of self.new ≡ Some (ids_read self.old) }
    {
        self.has_ids = true;
        self.ids.reverse();
    }

    // Whether members have no ids, or an id is left for the open member.
    #[inline(always)]
    pub(crate) fn has_needed_id(&self) -> bool
        ensures { result ≡ true → is_some (first_id (ids_of self.now)) ≡ self.now.has_ids }
    {
        !self.has_ids || !self.ids.is_empty()
    }

    /// The id of the open member, or before `begin` the last id that was read; `None` if members
    /// have no ids, or none is left. Takes no memory.
    #[inline(always)]
    pub fn first(&self) -> Option<i64>
        ensures { result ≡ first_id (ids_of self.now) }
    {
        if !self.has_ids {
            return None;
        }
        let left = self.ids.len();
        if left == 0 {
            return None;
        }
        Some(self.ids[left - 1])
    }

    /// Drops the id of the open member, if it has one, so that the next member is the open one;
    /// before `begin`, the last id that was read. Takes no memory.
    #[inline(always)]
    pub fn advance(&mut self)
        ensures ids { ids_of self.new ≡ other_ids (ids_of self.old) }
        ensures has { self.new.has_ids ≡ self.old.has_ids }
    {
        // the id is that of the member that ended
        let _ended = self.ids.pop();
    }
}
