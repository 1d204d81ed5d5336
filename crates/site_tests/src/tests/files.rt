//! Site files.

/// Two inverters, a target that clients set, a limit for the first inverter, and the total power.
pub(crate) const SITE: &str =
    "# Two inverters behind a gateway that shows their total power and takes a limit for the first one.

[gateway]
unit = 1
base = 40000
models = [1, 103, 123]

[[device]]
name = \"inv1\"
unit = 1

[[device]]
name = \"inv2\"
unit = 2

[[tag]]
name = \"inv1_w\"
access = \"in\"
device = \"inv1\"
model = 103
point = \"W\"
type = \"DINT\"
exponent = 0
low = -100000
high = 100000

[[tag]]
name = \"inv2_w\"
access = \"in\"
device = \"inv2\"
model = 103
point = \"W\"
type = \"DINT\"
exponent = 0
low = -100000
high = 100000

[[tag]]
name = \"target\"
access = \"set\"
model = 123
point = \"WMaxLimPct\"
type = \"INT\"
exponent = 0
low = 0
high = 100
default = 50

[[tag]]
name = \"lim1\"
access = \"out\"
device = \"inv1\"
model = 123
point = \"WMaxLimPct\"
type = \"INT\"
exponent = 0
low = 0
high = 100

[[tag]]
name = \"ena1\"
access = \"out\"
device = \"inv1\"
model = 123
point = \"WMaxLim_Ena\"
type = \"BOOL\"
exponent = 0
low = 0
high = 1

[[served]]
model = 103
point = \"W\"
sum = [\"inv1_w\", \"inv2_w\"]

[[served]]
model = 103
point = \"W_SF\"
value = 0

[[served]]
model = 123
point = \"WMaxLimPct_SF\"
value = 0
";

/// What it reads as, a line for each part.
pub(crate) const LINES: &str = "gateway 1 40000
model 1 66
model 103 50
model 123 24
device inv1 1 None Multiple
device inv2 2 None Multiple
tag inv1_w Input Dint -100000..100000 None e0 None false Some(0) 103 Int16 at 14 At(15)
tag inv2_w Input Dint -100000..100000 None e0 None false Some(1) 103 Int16 at 14 At(15)
tag target Setting Int 0..100 Some(50) e0 None false None 123 Uint16 at 5 At(23)
tag lim1 Output Int 0..100 None e0 None false Some(0) 123 Uint16 at 5 At(23)
tag ena1 Output Bool 0..1 None e0 None false Some(0) 123 Enum16 at 9 None
served 103 14 sum [0, 1]
served 103 15 value 0
served 123 23 value 0
";
