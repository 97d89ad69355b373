//! Laws of the EDC, of products, and of parity pairs. Each law is the contract of a function that
//! does nothing.

ghost use Rattle.cd_code.specs.Laws.{EdcIsUnique, EdcOfSum, PairIsUnique, ProductByBits, ProductOfNone, RemainderOfSum, SumByBits};

/// Two field elements are added bit by bit.
pub fn sum_goes_by_bits()
    ensures { SumByBits }
{}

/// A product is the sum of repeated doublings of one factor, one for each set bit of the other.
pub fn product_goes_by_bits()
    ensures by_bits { ProductByBits }
    ensures none { ProductOfNone }
{}

/// Two lists that differ at most in their last two bytes and have equal syndromes are equal.
pub fn pair_is_unique()
    ensures { PairIsUnique }
{}

/// Two lists that differ at most in their last four bytes and have equal remainders are equal.
pub fn edc_is_unique()
    ensures { EdcIsUnique }
{}

/// The EDC word of the sum of two lists of equal length is the sum of their EDC words. The same
/// holds for the remainders.
pub fn edc_of_sum()
    ensures words { EdcOfSum }
    ensures remainders { RemainderOfSum }
{}
