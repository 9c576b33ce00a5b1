//! Laws of shapes: public functions with no parameters, whose contracts are the laws.
ghost use Rattle.query_shape.specs.ShapeLaws.{EachPlacing, SameLifting, SameMatches, ShapeOnce, XIsFirst};

/// Where names are distinct, a placing of terms is a match of a query exactly where the images of its terms are a match
/// of its shape.
pub fn same_matches()
    ensures { SameMatches }
{}

/// Where names are distinct, a placing of terms lifts for a query exactly where the images of its terms lift for its shape.
pub fn same_lifting()
    ensures { SameLifting }
{}

/// As many images as there are distinct terms are the images of the terms by some placing.
pub fn each_placing()
    ensures { EachPlacing }
{}

/// Where names are distinct, a query has one shape at most.
pub fn shape_once()
    ensures { ShapeOnce }
{}

/// A query of two atoms whose second one names the first one's term last.
pub fn x_is_first()
    ensures { XIsFirst }
{}
