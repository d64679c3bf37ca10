use crate::{
    Entry, Env, Expr, Interval, Literal, Name, Operator, ScalarType, bounds, contains, truth, value,
};
use std::test::Fail;

#[test]
fn quotients_are_rounded_down(rt: HostRuntime) -> Result<(), Fail> {
    let quotient = Expr::binary(rt.alloc(), Operator::Div, Expr::Number(-7), Expr::Number(2))?;
    assert_eq!(rt; value(&quotient, &Env::new(3)), -4);
    Ok(())
}

#[test]
fn remainders_are_not_negative(rt: HostRuntime) -> Result<(), Fail> {
    let rest = Expr::binary(rt.alloc(), Operator::Mod, Expr::Number(-7), Expr::Number(2))?;
    let copy = rest.copy(rt.alloc())?;
    assert_eq!(rt; value(&copy, &Env::new(3)), 1);
    Ok(())
}

#[test]
fn compares_negative_numbers(rt: HostRuntime) -> Result<(), Fail> {
    let below = Expr::binary(
        rt.alloc(),
        Operator::Less,
        Expr::Number(-7),
        Expr::Number(2),
    )?;
    assert!(rt; truth(&below, &Env::new(3)));
    Ok(())
}

#[test]
fn leaves_of_no_field(rt: HostRuntime) {
    assert_eq!(rt; value(&Expr::Last(0), &Env::new(3)), -1);
    assert_eq!(rt; value(&Expr::Total, &Env::new(3)), 24);
}

#[test]
fn opposites_stand(rt: HostRuntime) -> Result<(), Fail> {
    assert!(rt; matches!(Expr::neg(rt.alloc(), Expr::Number(1))?, Expr::Neg(_)));
    assert!(rt; matches!(Expr::not(rt.alloc(), Expr::Truth(true))?, Expr::Not(_)));
    Ok(())
}

#[test]
fn keeps_entries(rt: HostRuntime) {
    let mut env = Env::new(3);
    env.push(Entry {
        field: 2,
        first: 0,
        size: 8,
        number: 200,
    });
    assert_eq!(rt; env.entry(2).number, 200);
    assert_eq!(rt; env.entry(1).size, 0);
    assert!(rt; env.has(2) && !env.has(1));
    assert_eq!(rt; env.total(), 3);
    assert_eq!(rt; env.entries().len(), 1);
}

#[test]
fn types_have_their_numbers(rt: HostRuntime) -> Result<(), Fail> {
    let range = ScalarType::Integer {
        first: 3,
        last: 5,
        size: 8,
    };
    for (number, wanted) in [(2, false), (3, true), (5, true), (6, false)] {
        assert_eq!(rt; contains(&range, number), wanted, "at {number}");
    }
    assert_eq!(rt; range.copy(rt.alloc())?.size(), 8);
    Ok(())
}

#[test]
fn enumerations_have_their_literals(rt: HostRuntime) -> Result<(), Fail> {
    let mut literals = Vec::new(rt.alloc());
    let name = Name::make(rt.alloc(), b"On")?;
    assert!(rt; name.is(b"oN") && !name.is(b"Of"));
    assert!(rt; name.is_same(&name.copy(rt.alloc())?));
    literals.push(Literal { name, number: 7 })?;
    let some = ScalarType::Enumeration {
        literals,
        size: 4,
        always_valid: false,
    };
    assert!(rt; contains(&some.copy(rt.alloc())?, 7) && !contains(&some, 8));
    let all = ScalarType::Enumeration {
        literals: Vec::new(rt.alloc()),
        size: 4,
        always_valid: true,
    };
    assert!(rt; contains(&all, 15) && !contains(&all, 16));
    Ok(())
}

#[test]
fn bounds_of_operators(rt: HostRuntime) {
    let left = Interval { low: -7, high: 3 };
    let right = Interval { low: 2, high: 2 };
    assert_eq!(rt;
        bounds(Operator::Div, left, right),
        Some(Interval { low: -4, high: 1 })
    );
    assert_eq!(rt;
        bounds(Operator::Mod, left, right),
        Some(Interval { low: 0, high: 1 })
    );
    assert_eq!(rt; bounds(Operator::Div, right, left), None);
    assert_eq!(rt;
        bounds(Operator::Mul, left, left),
        Some(Interval { low: -21, high: 49 })
    );
}
