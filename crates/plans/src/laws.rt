// What the rules give. The function is there for what it ensures.
ghost use Rattle.plans.specs.Facts.{Facts};
ghost use Rattle.plans.specs.Views.{Accepted, View};

// Whatever the rules accept has a plan in which each place has bits of its own.
fn facts_hold() -> u8
    ensures { (v : View) → Accepted v → Facts v }
{
    0
}
