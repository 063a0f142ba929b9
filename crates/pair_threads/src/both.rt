//! Two values that may be refused.
ghost use Rattle.std.specs.Prelude.{◌≡◌, IfSome, Ok};

/// Both of these, where neither was refused. One that is there alone is let go of here, where its type is a parameter: at each way out beside
/// a large value, as a pair's members, the proof would go over every part of it.
pub(crate) fn both<A: Drop, B: Drop, E: Drop, F: Drop>(
    one: Result<A, E>,
    other: Result<B, F>,
) -> Option<(A, B)>
    ensures { IfSome result (λ r. (one ≡ Ok r.0) × (other ≡ Ok r.1)) }
{
    let Ok(one) = one else {
        return None;
    };
    let Ok(other) = other else {
        return None;
    };
    Some((one, other))
}
