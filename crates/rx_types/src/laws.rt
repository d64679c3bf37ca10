// What holds of every expression and every scalar type, each as the clause of a function that does nothing.

ghost use Rattle.rx_types.specs.Laws.{ValueInInterval, StaticInInterval, NumbersUpToGreatest};

/// The value of a narrow expression lies in its interval.
pub fn value_lies_in_interval()
    ensures { ValueInInterval }
{}

/// A static expression has one value in all environments, and its interval is that value alone.
pub fn static_value_is_the_interval()
    ensures { StaticInInterval }
{}

/// No number of a scalar type is above the greatest.
pub fn numbers_are_up_to_the_greatest()
    ensures { NumbersUpToGreatest }
{}
