//! Which rule of a mount a fault breaks, as a mount reports it.
//! No mount asks so far: none reads trees yet.

ghost use Rattle.std.specs.Prelude.{◌≡◌};
ghost use Rattle.tree_check.specs.Rules.{rule_in_page, rule_on_level, rule_at_page, rule_broken};

use crate::node::NodeBad;
use crate::pages::PageFault;
use crate::rows::RowFault;
use page_format::PageBad;
use store_api::PageRule;

fn rule_in_page(bad: PageBad) -> u8
    ensures { result ≡ rule_in_page bad }
{
    match bad {
        PageBad::Sum { .. } | PageBad::Number { .. } => PageRule::Sum as u8,
        PageBad::Shape { rule } => rule,
    }
}

fn rule_on_level(bad: NodeBad) -> u8
    ensures { result ≡ rule_on_level bad }
{
    match bad {
        NodeBad::Field => PageRule::Fields as u8,
        NodeBad::Order | NodeBad::First => PageRule::Order as u8,
        NodeBad::Place => PageRule::Child as u8,
    }
}

fn rule_at_page(fault: PageFault) -> u8
    ensures { result ≡ rule_at_page fault }
{
    match fault {
        PageFault::Missing => PageRule::Fields as u8,
        PageFault::Free => PageRule::Use as u8,
        PageFault::Unread(bad) => rule_in_page(bad),
        PageFault::Wrong(bad) => rule_on_level(bad),
    }
}

/// The number of the rule that a fault breaks, or 0 where the bytes of a page can't be read as that page, by their sum or their
/// number.
pub fn rule_broken(fault: RowFault) -> u8
    ensures { result ≡ rule_broken fault }
{
    match fault {
        RowFault::Page { page: _, fault } => rule_at_page(fault),
        RowFault::Child { .. } => PageRule::Child as u8,
        RowFault::Neighbour { .. } => PageRule::Neighbour as u8,
    }
}
