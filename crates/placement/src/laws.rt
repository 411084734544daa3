// The laws that the layout rests on. Each function is there for what it ensures.
ghost use Rattle.placement.specs.Place.{PlansSound};
ghost use Rattle.placement.specs.Stride.{Strides};
ghost use Rattle.placement.specs.Turn.{Turns};

// Each place of a plan has bits of its own, below the frame size.
fn plans_sound() -> u8
    ensures { PlansSound }
{
    0
}

// Without blocks, repetitions of a cycle lie a fixed number of bits apart.
fn strides_even() -> u8
    ensures { Strides }
{
    0
}

// With blocks, how full the open block is comes round again within 65 repetitions of a cycle.
fn blocks_come_round() -> u8
    ensures { Turns }
{
    0
}
