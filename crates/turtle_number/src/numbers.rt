ghost use Rattle.turtle_number.specs.Numbers.{IntegersAgree, DecimalsAgree, DoublesAgree};

/// `parse_decimal` takes exactly the texts of the terminals INTEGER, DECIMAL and DOUBLE for numbers, and tells them apart as they do.
pub fn numbers_agree()
    ensures integers { IntegersAgree }
    ensures decimals { DecimalsAgree }
    ensures doubles { DoublesAgree }
{}
