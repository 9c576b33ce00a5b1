//! Laws of the layout: public functions with no parameters, whose contracts are the laws.

ghost use Rattle.area_layout.specs.Laws.{HeaderAnsweredOnce, HeaderReadBack, HeadAnsweredOnce, HeadReadBack};

/// To some bytes there is one answer of reading a header: they mean one header and no other, or are refused in one way.
pub fn header_answered_once()
    ensures { HeaderAnsweredOnce }
{}

/// A header that is written is read back, whatever stands behind it.
pub fn header_read_back()
    ensures { HeaderReadBack }
{}

/// To some bytes there is one answer of reading a head: they mean one head and no other, or are refused in one way.
pub fn head_answered_once()
    ensures { HeadAnsweredOnce }
{}

/// A head that is written is read back, whatever stands behind it.
pub fn head_read_back()
    ensures { HeadReadBack }
{}
