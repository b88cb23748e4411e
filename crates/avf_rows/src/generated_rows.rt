// Rows of `bench`: generated programs, the reports of which come from other implementations; the longest is of 16,401 instructions.
use crate::rows::{Due, Row};

pub static GENERATED: [Row; 4] = [
    Row(&[], "bench 1 1", 0, Due::Whole(ONE)),
    Row(&[], "bench 7 16", 0, Due::Whole(SIXTEEN)),
    Row(&[], "bench 7 500", 0, Due::Whole(FIVE_HUNDRED)),
    Row(&[], "bench 7 4096", 0, Due::Whole(LONGEST)),
];

const ONE: &str = "\
cycles 30\n\
instructions 21\n\
end exit 0\n\
structure bits ace ppm\n\
pc 30 0 0\n\
npc 30 900 1000000\n\
bht 128 0 0\n\
btb 912 0 0\n\
ib 256 482 62760\n\
idex 153 730 159041\n\
exmem 79 319 134599\n\
memwb 37 148 133333\n\
rf 992 416 13978\n\
sb 264 0 0\n\
port 6 0 0\n\
cdata 8192 0 0\n\
ctag 1472 0 0\n\
cvalid 64 0 0\n\
cdirty 64 0 0\n\
clru 32 0 0\n\
total 12711 2995 7854\n\
U1 33390\n\
U2 307299\n\
U3 826\n\
U4 1401\n\
U5 3591\n\
U6 29344\n\
U7 0\n\
U8 480\n\
U9 0\n\
U10 0\n\
U11 1920\n\
U12 0\n\
U13 84\n\
";

const SIXTEEN: &str = "\
cycles 190\n\
instructions 81\n\
end exit 255\n\
structure bits ace ppm\n\
pc 30 0 0\n\
npc 30 5700 1000000\n\
bht 128 0 0\n\
btb 912 0 0\n\
ib 256 10925 224609\n\
idex 153 3359 115548\n\
exmem 79 646 43037\n\
memwb 37 470 66856\n\
rf 992 20472 108616\n\
sb 264 0 0\n\
port 6 0 0\n\
cdata 8192 8328 5350\n\
ctag 1472 7199 25740\n\
cvalid 64 313 25740\n\
cdirty 64 313 25740\n\
clru 32 0 0\n\
total 12711 57725 23901\n\
U1 211470\n\
U2 1772592\n\
U3 3304\n\
U4 24722\n\
U5 38040\n\
U6 168008\n\
U7 53984\n\
U8 4810\n\
U9 54136\n\
U10 976\n\
U11 24839\n\
U12 0\n\
U13 484\n\
";

const FIVE_HUNDRED: &str = "\
cycles 6126\n\
instructions 2017\n\
end exit 243\n\
structure bits ace ppm\n\
pc 30 0 0\n\
npc 30 183780 1000000\n\
bht 128 0 0\n\
btb 912 0 0\n\
ib 256 335866 214165\n\
idex 153 55148 58838\n\
exmem 79 9865 20384\n\
memwb 37 9758 43050\n\
rf 992 477173 78521\n\
sb 264 791 489\n\
port 6 0 0\n\
cdata 8192 1887992 37621\n\
ctag 1472 3720855 412627\n\
cvalid 64 156670 399603\n\
cdirty 64 156670 399603\n\
clru 32 0 0\n\
total 12711 6994568 89826\n\
U1 6818238\n\
U2 13371616\n\
U3 2359\n\
U4 946347\n\
U5 1512945\n\
U6 5599819\n\
U7 22750632\n\
U8 214713\n\
U9 15729624\n\
U10 269632\n\
U11 3599379\n\
U12 41034\n\
U13 16680\n\
";

const LONGEST: &str = "\
cycles 53729\n\
instructions 16401\n\
end exit 0\n\
structure bits ace ppm\n\
pc 30 0 0\n\
npc 30 1611870 1000000\n\
bht 128 0 0\n\
btb 912 0 0\n\
ib 256 3681833 267679\n\
idex 153 998203 121427\n\
exmem 79 306186 72135\n\
memwb 37 189158 95151\n\
rf 992 6636789 124519\n\
sb 264 312940 22062\n\
port 6 0 0\n\
cdata 8192 40343619 91659\n\
ctag 1472 51393356 649816\n\
cvalid 64 2161433 628569\n\
cdirty 64 2161433 628569\n\
clru 32 0 0\n\
total 12711 109796820 160768\n\
U1 59800377\n\
U2 21483434\n\
U3 2485\n\
U4 8324750\n\
U5 11697377\n\
U6 46662379\n\
U7 254857143\n\
U8 1739286\n\
U9 139362614\n\
U10 2320532\n\
U11 26124186\n\
U12 631140\n\
U13 146796\n\
";
