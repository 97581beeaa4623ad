//! A specification of which all things are numbered.

/// Shapes of the required types are 0 to 2; the comments count those of the text, a header's exports where it stands.
pub const NUMBERED: &str = "specification s systemprocess;
const n = 3;
type colour = (red, green, blue);
row = array [1..n] of boolean;
pair = record first: integer; rest: record a, b: char end end;
channel d(left, right); by left: other;
channel c(a, b); by a: m(i: integer); k; by b: q; by a, b: r;
function g: integer; begin g := 1 end;
module h process (x: integer); ip p: c(a); export u, v: array [colour] of set of 0..7; end;
body hb for h;
var w: array [1..2, boolean] of colour;
procedure f(z: integer); type local = 0..9; var y: local; begin y := z end;
procedure ff; begin f(2) end;
ip o: c(b); e: d(left);
state t;
initialize to t begin end;
trans any j: 1..2; hue: colour do from t to t begin f(1); ff; output p.m(1); output p.k; output o.q; output o.r; output e.other end;
end;
body hc for h;
procedure f; begin end;
state t;
initialize to t begin f end;
end;
modvar mv, mw: h;
var total: integer;
initialize begin init mv with hb(1); init mw with hc(2); total := g end;
end.
";
