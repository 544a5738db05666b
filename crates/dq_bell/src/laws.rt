//! What the rule comes to.
ghost use Rattle.dq_bell.specs.Law.{NoWakeIsLost, NobodySleepsOnceClosed};

/// Between any two steps: who sleeps, and wasn't rung, sleeps beyond no hint, once nobody awake has yet to ask.
pub fn no_wake_is_lost()
    ensures { NoWakeIsLost }
{}

/// Between any two steps: once somebody closed, nobody sleeps who wasn't rung.
pub fn nobody_sleeps_once_closed()
    ensures { NobodySleepsOnceClosed }
{}
