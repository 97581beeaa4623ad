//! The ring of two stations, in canonical form.

/// The worked text of the ring of two stations, its tokens joined by one space, with a line feed behind each `;` and at the end.
pub const RING_OF_TWO: &str = "specification ring ;
default individual queue ;
channel link ( giver , taker ) ;
by giver : token ( hops : integer ) ;
module station systemprocess ( mark : integer ) ;
ip left : link ( taker ) ;
right : link ( giver ) ;
end ;
body go for station ;
var sum : integer ;
state fresh , here ;
initialize to fresh begin sum := mark end ;
trans from fresh to here begin output right . token ( 0 ) end ;
from here to here when left . token begin sum := hops ;
output right . token ( hops + 1 ) end ;
end ;
modvar s1 , s2 : station ;
initialize begin init s1 with go ( 1 ) ;
init s2 with go ( 2 ) ;
connect s1 . right to s2 . left ;
connect s2 . right to s1 . left end ;
end .
";
