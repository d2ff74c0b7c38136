//! The range of numbers that contains all members with a link.
ghost use Rattle.std.specs.Prelude.{◌≡◌, ◌<◌, ◌≤◌, ◌+◌, ◌^◌, ◌∷◌, [], ◌++◌, List, false, true, length, insert, remove, drop, slice_get, IfSome, ℕ};
ghost use Rattle.base_numbered_lists.specs.Moved.{moved};
ghost use Rattle.bank_linked_members.specs.Spans.{IsLinkSpan, IsOutside, IsShifted};

use crate::linked::Linked;

/// The numbers `start..end`: no member outside them has a link.
#[derive(Clone, Copy)]
pub(crate) struct LinkSpan {
    pub(crate) start: usize,
    pub(crate) end: usize,
}

impl LinkSpan {
    // This span widened by the number of one of `count` members. An empty span becomes that number alone.
    pub(crate) fn with(self, number: usize, count: usize) -> LinkSpan
        requires { number < count }
        ensures covers { (result.start ≤ number) × (number < result.end) }
        ensures outside { (i : ℕ) → IsOutside result i → IsOutside self i }
        ensures within { self.end ≤ count → result.end ≤ count }
        ensures alone { self.end ≤ self.start → (result.start ≡ number) × (result.end ≡ number + 1) }
    {
        if self.end <= self.start {
            return LinkSpan {
                start: number,
                end: number + 1,
            };
        }
        LinkSpan {
            start: self.start.min(number),
            end: self.end.max(number + 1),
        }
    }

    // The span after an insertion of a member, with a link or without, as number `at`. `count` is the new number of
    // members.
    pub(crate) fn after_insertion(self, at: usize, count: usize, has_link: bool) -> LinkSpan
        requires order { self.start ≤ self.end }
        requires fits { self.end < count }
        requires place { at < count }
        ensures order { result.start ≤ result.end }
        ensures within { result.end ≤ count }
        ensures outside { IsShifted self result at }
        ensures own { IsOutside result at → has_link ≡ false }
    {
        let shifted = self.shifted(at, count);
        if has_link {
            shifted.with(at, count)
        } else {
            shifted
        }
    }

    // The same for a member without a link.
    fn shifted(self, at: usize, count: usize) -> LinkSpan
        requires order { self.start ≤ self.end }
        requires fits { self.end < count }
        requires place { at < count }
        ensures order { result.start ≤ result.end }
        ensures within { result.end ≤ count }
        ensures outside { IsShifted self result at }
    {
        if at <= self.start {
            LinkSpan {
                start: self.start + 1,
                end: self.end + 1,
            }
        } else if at < self.end {
            LinkSpan {
                start: self.start,
                end: self.end + 1,
            }
        } else {
            self
        }
    }

    // The span after the removal of member `at`.
    pub(crate) fn after_removal(self, at: usize) -> LinkSpan
        requires order { self.start ≤ self.end }
        ensures order { result.start ≤ result.end }
        ensures below { (i : ℕ) → IsOutside result i → i < at → IsOutside self i }
        ensures above { (i : ℕ) → IsOutside result i → at ≤ i → IsOutside self (i + 1) }
        ensures within { (count : ℕ) → self.end ≤ count + 1 → at < count + 1 → result.end ≤ count }
    {
        if at < self.start {
            LinkSpan {
                start: self.start - 1,
                end: self.end - 1,
            }
        } else if at < self.end {
            LinkSpan {
                start: self.start,
                end: self.end - 1,
            }
        } else {
            self
        }
    }

    // The span from the first member with a link to the last one.
    pub(crate) fn tightened<T: Linked>(self, members: &[T]) -> LinkSpan
        requires { IsLinkSpan T.has_link members.now self }
        ensures { IsLinkSpan T.has_link members.now result }
    {
        let start = first_linked(members, self);
        let end = last_linked(
            members,
            LinkSpan {
                start,
                end: self.end,
            },
        );
        LinkSpan { start, end }
    }
}

// The number of the first member with a link in the span, or else the span's end.
fn first_linked<T: Linked>(members: &[T], span: LinkSpan) -> usize
    requires { IsLinkSpan T.has_link members.now span }
    ensures { IsLinkSpan T.has_link members.now (record { start = result; end = span.end }) }
{
    let mut start = span.start;
    while start < span.end && !members[start].has_link() {
        start += 1;
    }
    start
}

// The number after the last member with a link in the span, or else the span's start.
fn last_linked<T: Linked>(members: &[T], span: LinkSpan) -> usize
    requires { IsLinkSpan T.has_link members.now span }
    ensures { IsLinkSpan T.has_link members.now (record { start = span.start; end = result }) }
{
    let mut end = span.end;
    while span.start < end && !members[end - 1].has_link() {
        end -= 1;
    }
    end
}
