//! A list of numbered members that may link to one another.
ghost use Rattle.std.specs.Prelude.{◌≡◌, ◌≢◌, ◌<◌, ◌≤◌, ◌++◌, ◌∷◌, [], true, false, IfSome, length, map, insert, remove, slice_get, slice_set, Some, IfErr, OnOk, OnErr, All};
ghost use Rattle.std.specs.List.{list_any};
ghost use Rattle.std.specs.Option.{option_copied};
ghost use Rattle.std.specs.Borrow.{Lends, sem};
ghost use Rattle.bank_linked_members.specs.contracts.members.LinkedMembers.{the_row};
ghost use Rattle.base_numbered_lists.specs.Moved.{moved};
ghost use Rattle.bank_linked_members.specs.Spans.{IsLinkSpan};

use crate::double_ended::DoubleEndedList;
use crate::linked::Linked;
use crate::span::LinkSpan;
use base_numbered_lists::{Renumber, Renumbering};
use std::alloc::Global;
use std::marker::Model;

/// A list whose members are numbered from 0 and may link to one another by number.
///
/// A change moves the members on its shorter side. Links are read only within a range of numbers that contains all
/// members with a link. A member borrowed mutably widens that range only if it has a link afterwards.
pub struct LinkedMembers<T: Linked> {
    list: DoubleEndedList<T>,
    // No member outside it has a link, except the borrowed one.
    span: LinkSpan,
    // The number of a member whose link isn't known, since it was borrowed mutably.
    borrowed: Option<usize>,
}

impl<T: Linked> Drop for LinkedMembers<T> {
    fn drop(self) {
        let LinkedMembers {
            list: _,
            span: _,
            borrowed: _,
        } = self;
    }
}

impl<T: Linked> Model for LinkedMembers<T> {
    ghost use Rattle.std.specs.Prelude.{List};
    ghost use Rattle.bank_linked_members.specs.Spans.{IsLinkSpanExcept};

    ghost Value = { List T };

    ghost view = { λ l. l.list };

    ghost invariant = { λ l. IsLinkSpanExcept T.has_link l.list l.span l.borrowed };
}

impl<T: Linked> LinkedMembers<T> {
    /// Makes an empty list. Allocates nothing.
    pub fn new(alloc: Global) -> LinkedMembers<T>
        ensures { result ≡ [] }
    {
        LinkedMembers::from_vec(Vec::new(alloc))
    }

    /// Makes a list of the elements of a `Vec`. Allocates nothing.
    pub fn from_vec(vec: Vec<T>) -> LinkedMembers<T>
        ensures { result ≡ vec.items }
    {
        let all = LinkSpan {
            start: 0,
            end: vec.len(),
        };
        let span = all.tightened(&vec);
        LinkedMembers {
            list: DoubleEndedList::from_vec(vec),
            span,
            borrowed: None,
        }
    }

    /// The number of members.
    pub fn len(&self) -> usize
        ensures { result ≡ length self.now }
    {
        self.list.len()
    }

    /// The members in order.
    pub fn as_slice(&self) -> &[T]
        ensures { result.now ≡ self.now }
    {
        self.list.as_slice()
    }

    /// Member `i`, or `None` if there is none.
    pub fn get(&self, i: usize) -> Option<&T>
        ensures { option_copied result ≡ slice_get self.now i }
    {
        self.list.as_slice().get(i)
    }

    /// A mutable reference to member `i`, which must exist.
    pub fn member_mut(&mut self, i: usize) -> &mut T
        requires { i < length self.old }
        ensures* writes_back { sem 𝓛 (Lends (the_row T.row (record { has_link = T.has_link; links_to = T.links_to }) (record { can_renumber = T.can_renumber; with_new_numbers = T.with_new_numbers })) T.row self.entry result (λ w. slice_set self.old i w)) }
        ensures value { slice_get self.old i ≡ Some result.now }
    {
        self.span = self.link_span();
        self.borrowed = Some(i);
        self.list.member_mut(i)
    }

    /// Appends `x`. A failed allocation changes nothing and returns `x`.
    pub fn push(&mut self, x: T) -> Result<(), T>
        ensures ok { OnOk result (self.new ≡ self.old ++ x ∷ []) }
        ensures err { OnErr result (self.new ≡ self.old) }
        ensures value_returned { IfErr result (λ y. y ≡ x) }
    {
        let at = self.list.len();
        let has_link = x.has_link();
        let span = self.link_span();
        self.list.push(x)?;
        self.span = span.after_insertion(at, self.list.len(), has_link);
        self.borrowed = None;
        Ok(())
    }

    /// Renumbers the members, and inserts `x`, which is renumbered already, as member `i`. A failed allocation changes
    /// nothing and returns `x`.
    pub fn insert_renumbered(&mut self, by: Renumbering, i: usize, x: T) -> Result<(), T>
        requires place { i ≤ length self.old }
        requires numbers { All (T.can_renumber by) self.old }
        ensures ok { OnOk result (self.new ≡ insert (map (T.with_new_numbers by) self.old) i x) }
        ensures err { OnErr result (self.new ≡ self.old) }
        ensures value_returned { IfErr result (λ y. y ≡ x) }
    {
        let has_link = x.has_link();
        let span = self.link_span();
        self.list.insert_renumbered(by, span, i, x)?;
        self.span = span.after_insertion(i, self.list.len(), has_link);
        self.borrowed = None;
        Ok(())
    }

    /// Removes and returns member `i`; the numbers of later members fall by one. Allocates nothing.
    pub fn remove(&mut self, i: usize) -> T
        requires { i < length self.old }
        ensures value { slice_get self.old i ≡ Some result }
        ensures list { self.new ≡ remove self.old i }
    {
        let span = self.link_span().after_removal(i);
        let x = self.list.remove(i);
        self.span = span.tightened(self.list.as_slice());
        self.borrowed = None;
        x
    }

    /// Moves member `from` to index `to`; the others keep their order. Allocates nothing.
    pub fn move_member(&mut self, from: usize, to: usize)
        requires from { from < length self.old }
        requires to { to < length self.old }
        ensures { self.new ≡ moved self.old from to }
    {
        let has_link = self.list.member(from).has_link();
        let others = self.link_span().after_removal(from);
        let span = others.after_insertion(to, self.list.len(), has_link);
        self.list.move_member(from, to);
        self.span = span.tightened(self.list.as_slice());
        self.borrowed = None;
    }

    /// Whether a member other than member `number` links to that member.
    pub fn others_link_to(&self, number: u32) -> bool
        requires { number < length self.now }
        ensures { result ≡ list_any (T.links_to number) (remove self.now number) }
    {
        let members = self.list.as_slice();
        let span = self.link_span();
        for i in span.start..span.end {
            if is_other_link(members, i, number) {
                return true;
            }
        }
        false
    }

    // The span that contains all members with a link, widened by the borrowed member if it has one now.
    fn link_span(&self) -> LinkSpan
        ensures { IsLinkSpan T.has_link self.now result }
    {
        let Some(i) = self.borrowed else {
            return self.span;
        };
        if self.list.member(i).has_link() {
            self.span.with(i, self.list.len())
        } else {
            self.span
        }
    }
}

// Whether member `i` is another member than `number`, and links to it.
fn is_other_link<T: Linked>(members: &[T], i: usize, number: u32) -> bool
    requires { i < length members.now }
    ensures yes { result ≡ true → (i ≢ number) × IfSome (slice_get members.now i) (λ x. T.links_to number x ≡ true) }
    ensures no { result ≡ false → i ≢ number → IfSome (slice_get members.now i) (λ x. T.links_to number x ≡ false) }
{
    i != number as usize && members[i].links_to(number)
}

/// The numbers in a list are those in its members.
impl<T: Linked> Renumber for LinkedMembers<T> {
    ghost can_renumber = { λ by list. All (T.can_renumber by) list };

    ghost with_new_numbers = { λ by list. map (T.with_new_numbers by) list };

    fn renumber(&mut self, by: Renumbering) {
        let span = self.link_span();
        self.list.renumber_range(by, span);
        self.span = span;
        self.borrowed = None;
    }
}
