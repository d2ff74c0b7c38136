//! The links of samples when the list of samples changes.
use crate::parts::{Kind, Sample};
use bank_linked_members::Linked;
use base_numbered_lists::{Renumber, Renumbering};

/// A sample holds the number of the sample that it links to.
impl<'a> Renumber for Sample<'a> {
    ghost use Rattle.std.specs.Prelude.{ℕ, ◌<◌, ◌^◌};
    ghost use Rattle.base_numbered_lists.specs.Renumbered.{renumbered};
    ghost use Rattle.bank_parts.specs.Links.{IfLinked};
    ghost use Rattle.bank_parts.specs.Renumbered.{sample_renumbered};

    ghost can_renumber = { λ by s. IfLinked (λ link. renumbered by link < 2 ^ 16) s.kind };

    ghost with_new_numbers = { sample_renumbered };

    fn renumber(&mut self, by: Renumbering) {
        if let Some(link) = self.kind.link() {
            self.kind = self.kind.with_link(by.number_after(link));
        }
    }
}

/// A sample may link to another sample.
impl<'a> Linked for Sample<'a> {
    ghost use Rattle.bank_parts.specs.Links.{has_link, links_to, unlinked_links_nowhere};
    ghost use Rattle.bank_parts.specs.Renumbered.{unlinked_stays};

    ghost has_link = { λ s. has_link s.kind };

    ghost links_to = { λ number s. links_to number s.kind };

    ghost links_nowhere = { λ number s unlinked. unlinked_links_nowhere number s.kind unlinked };

    ghost stays = { unlinked_stays };

    fn has_link(&self) -> bool {
        match self.kind {
            Kind::Mono => false,
            Kind::Right(_) | Kind::Left(_) | Kind::Linked(_) => true,
        }
    }

    fn links_to(&self, number: u32) -> bool {
        match self.kind {
            Kind::Mono => false,
            Kind::Right(link) | Kind::Left(link) | Kind::Linked(link) => u32::from(link) == number,
        }
    }
}
