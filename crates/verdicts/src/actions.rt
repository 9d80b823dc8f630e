//! Which accesses fit which action of a rule: access is the parent of projection and condition.
ghost use Rattle.std.specs.Prelude.{◌≡◌};
ghost use Rattle.verdicts.specs.Actions.{action_fits, channel_fits, number_of};

use book::Action;
pub use lineage::rows::Channel;

/// Whether an access that does this fits a reference that names that.
fn action_fits(does: Channel, names: Action) -> bool
    ensures { result ≡ action_fits does names }
{
    match does {
        Channel::Projection => match names {
            Action::Projection => true,
            Action::Condition => false,
            Action::Access => true, // the parent of projection
        },
        Channel::Condition => match names {
            Action::Projection => false,
            Action::Condition => true,
            Action::Access => true, // the parent of condition
        },
    }
}

/// The same for the action that a reference names, if its byte names one.
#[tactic(auto, using(crate::proofs::Accesses::names_fits), unfolding(crate::specs::Actions::channel_fits))]
pub fn channel_fits(does: Channel, named: Option<Action>) -> bool
    ensures { result ≡ channel_fits (number_of does) named }
{
    named.is_some_and(|action| action_fits(does, action))
}
