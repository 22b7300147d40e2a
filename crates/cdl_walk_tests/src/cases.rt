// Texts with `|` between files, and behind `?` what the walk of their block M answers: the paths of the instances, a semicolon and the
// elements by instance; or the path and the rule that is broken first. `RI` and the like stand for connectors, and `CDL.` for the
// library's blocks. The answers were worked out apart from the program.
pub const CASES: &str = "\
block M RI u; RO y; end M; ? # ; #u #y\n\
block A RI u; end A; block M A a; RO y; end M; ? # #a ; #y #a.u\n\
block M A a; end M; | block A BI u; IO y; end A; ? # #a ; #a.u #a.y\n\
block A RI u[2]; end A; block M A a[2]; end M; ? # #a[1] #a[2] ; #a[1].u[1] #a[1].u[2] #a[2].u[1] #a[2].u[2]\n\
block A end A; block M A a[2, 3]; end M; ? # #a[1,1] #a[1,2] #a[1,3] #a[2,1] #a[2,2] #a[2,3] ;\n\
block M RI u[2, 3]; end M; ? # ; #u[1,1] #u[1,2] #u[1,3] #u[2,1] #u[2,2] #u[2,3]\n\
block B RI u; end B; block A B b[2]; end A; block M A a[2]; end M; ? # #a[1] #a[1].b[1] #a[1].b[2] #a[2] #a[2].b[1] #a[2].b[2] ; #a[1].b[1].u #a[1].b[2].u #a[2].b[1].u #a[2].b[2].u\n\
block A RI u; end A; block M A a if false; A b if true; end M; ? # #b ; #b.u\n\
block A end A; block M A a if {true}; end M; ? #a:C26\n\
block A end A; block M parameter Boolean t = true; A a if t; A b if not t; end M; ? # #a ;\n\
block A parameter Integer k = 1 / 0; end A; block M A a[0]; end M; ? # ;\n\
block A parameter Integer k = 1 / 0; end A; block M A a[1]; end M; ? #a[1].k:C30\n\
block A parameter Integer n; RI u[n]; end A; block M A a[2](n = {1, 2}); end M; ? # #a[1] #a[2] ; #a[1].u[1] #a[2].u[1] #a[2].u[2]\n\
block A B b; end A; block B C c; end B; block C A a; end C; block M A a; end M; ? #a.b.c.a:C21\n\
block A B b; end A; block B end B; block M A a; B b; end M; ? # #a #a.b #b ;\n\
block M M m; end M; ? #m:C21\n\
block M M m if false; end M; ? # ;\n\
block A end A; block M A a(x = 1); end M; ? #a:C22\n\
block A parameter Integer x; end A; block M A a(x = 1); end M; ? # #a ;\n\
block A RI u; end A; block M A a(u = 1); end M; ? #a:C22\n\
block A RI u; end A; block M A a(u(min = 1)); end M; ? # #a ; #a.u\n\
block M parameter Integer k(foo = 1) = 1; end M; ? #k:C22\n\
block M parameter Integer k(min = 1) = 1; end M; ? # ;\n\
block M parameter Integer k(min(max = 1) = 2) = 1; end M; ? #k:C22\n\
block M RI u(foo = 1); end M; ? #u:C22\n\
block M CDL.Reals.AddParameter a(q = 1); end M; ? #a:C22\n\
block A parameter Integer x; end A; block M A a(x = 1, x = 2); end M; ? #a:C23\n\
block A parameter Integer x; end A; block M A a(x = 1, y = 2, x = 3); end M; ? #a:C22\n\
block A parameter Integer x; end A; block M A a(x = 1, x = 2, y = 3); end M; ? #a:C23\n\
block M RI u(min = 1, min = 2); end M; ? #u:C23\n\
block B parameter Integer x; end B; block A B b; end A; block M A a(b(x = 1, x = 2)); end M; ? #a:C23\n\
block A final parameter Integer x = 1; end A; block M A a(x = 2); end M; ? #a.x:C24\n\
block A parameter Integer x = 1; end A; block M A a(final x = 2); end M; ? # #a ;\n\
block A constant Integer x = 1; end A; block M A a(x = 2); end M; ? #a.x:C24\n\
block A constant Integer x = 1; end A; block M A a; end M; ? # #a ;\n\
block A parameter Integer x = 1; end A; block B final A a; end B; block M B b(a(x = 2)); end M; ? #b.a.x:C24\n\
block A parameter Integer x = 1; end A; block B A a(final x = 3); end B; block M B b(a(x = 2)); end M; ? #b.a.x:C24\n\
block A parameter Integer x = 1; end A; block B A a(x = 3); end B; block M B b(a(x = 2)); end M; ? # #b #b.a ;\n\
block K RI u(final unit = \"K\"); end K; block M K k(u(unit = \"degC\")); end M; ? #k.u:C24\n\
block K RI u(unit = \"K\"); end K; block M K k(u(unit = \"degC\")); end M; ? # #k ; #k.u:degC\n\
block K final RI u; end K; block M K k(u(unit = \"degC\")); end M; ? #k.u:C24\n\
block B CDL.Reals.AddParameter a(final p = 1); end B; block M B b(a(p = 2)); end M; ? #b.a.p:C24\n\
block M RI u(unit = 1); end M; ? #u:C26\n\
block M RI u[2](unit = {\"K\"}); end M; ? #u:C25\n\
block M RI u[2](unit = {\"K\", \"m\"}); RI v[2](unit = \"s\"); end M; ? # ; #u[1]:K #u[2]:m #v[1]:s #v[2]:s\n\
block M II u(unit = 1 / 0); parameter Real p(unit = foo) = 1; end M; ? # ; #u\n\
block M RI u(unit = 1) if false; RI v(foo = 1) if true; end M; ? #v:C22\n\
block M RI u(foo = 1) if false; end M; ? #u:C22\n\
block M RI u(unit = 1) if false; end M; ? # ;\n\
block M RI u[1.5] if false; end M; ? #u:C26\n\
block A end A; block M A a[1.5] if false; end M; ? # ;\n\
block M RI u(unit = \"aaaaaaaaaaaaaaaaaaaaaaaaaaaaaaaaaaaaaaaaaaaaaaaaaaaaaaaaaaaaaaaaa\"); end M; ? #u:C38\n\
block M CDL.Reals.AddParameter a(p = 1); end M; ? # #a ; #a.u #a.y\n\
block M CDL.Reals.AddParameter a; end M; ? #a.p:C31\n\
block M CDL.Reals.MultiSum s(nin = 0); end M; ? #s:C32\n\
block M CDL.Reals.MultiSum s(nin = 257); end M; ? #s:C32\n\
block M CDL.Reals.MultiSum s(nin = 2); end M; ? # #s ; #s.u[1] #s.u[2] #s.y\n\
block M CDL.Reals.MultiSum s(nin = 2, u(unit = {\"K\"})); end M; ? #s.u:C25\n\
block M CDL.Reals.MultiSum s(nin = 0, u(unit = 1)); end M; ? #s:C32\n\
block M CDL.Reals.MultiSum s(nin = 2, k = {1}, u(unit = 1)); end M; ? #s.k:C25\n\
block M CDL.Reals.AddParameter a[2](p = {1, 2}); end M; ? # #a[1] #a[2] ; #a[1].u #a[1].y #a[2].u #a[2].y\n\
block M CDL.Reals.AddParameter a[2](each p = true); end M; ? #a[1].p:C26\n\
block A end A; block M A a[1 / 0] if 1; end M; ? #a:C26\n\
block M M m[1.5]; end M; ? #m:C26\n\
block M M m(x = 1); end M; ? #m:C21\n\
block M RI u[1.5](foo = 1); end M; ? #u:C26\n\
block M RI u(foo = 1, unit = 1); end M; ? #u:C22\n\
block M RI u(unit = 1); parameter Integer k = 1 / 0; end M; ? #u:C26\n\
block M parameter Integer k = 1 / 0; RI u(unit = 1); end M; ? #k:C30\n\
block A final parameter Integer x = 1 / 0; end A; block M A a(x = 2); end M; ? #a.x:C24\n\
block A final parameter Integer x(foo = 1) = 1; end A; block M A a(x = 2); end M; ? #a.x:C22\n\
block A RI u(unit = 1); end A; block M A a[2]; RI v(unit = 1); end M; ? #a[1].u:C26\n\
block A parameter Integer k = 1; end A; block M A a[2](k = {1, 1.5}); parameter Integer j = 1 / 0; end M; ? #a[1].k:C26\n\
block A B b; end A; block B C c; end B; block C D d; end C; block D A a; end D; block M A a; end M; ? #a.b.c.d.a:C21\n\
block M parameter Boolean g = false; M m if g; end M; ? # ;\n\
block M parameter Boolean g = true; M m if g; end M; ? #m:C21\n\
block M parameter Integer k = x; end M; ? #k:C27\n\
block M parameter Integer x = 1; parameter Integer k = x; end M; ? # ;\n\
block M RI u[4097]; end M; ? #u:C28\n\
block A end A; block M A a[-1]; end M; ? #a:C28\n\
block M parameter Integer a = b; parameter Integer b = a; end M; ? #a:C29\n\
block M parameter Integer p0 = 1; parameter Integer p1 = p0; parameter Integer p2 = p1; parameter Integer p3 = p2; parameter Integer p4 = p3; parameter Integer p5 = p4; parameter Integer p6 = p5; parameter Integer p7 = p6; parameter Integer p8 = p7; parameter Integer p9 = p8; parameter Integer p10 = p9; parameter Integer p11 = p10; parameter Integer p12 = p11; parameter Integer p13 = p12; parameter Integer p14 = p13; parameter Integer p15 = p14; parameter Integer p16 = p15; parameter Integer p17 = p16; parameter Integer p18 = p17; parameter Integer p19 = p18; parameter Integer p20 = p19; parameter Integer p21 = p20; parameter Integer p22 = p21; parameter Integer p23 = p22; parameter Integer p24 = p23; parameter Integer p25 = p24; parameter Integer p26 = p25; parameter Integer p27 = p26; parameter Integer p28 = p27; parameter Integer p29 = p28; parameter Integer p30 = p29; parameter Integer p31 = p30; parameter Integer p32 = p31; parameter Integer p33 = p32; parameter Integer p34 = p33; parameter Integer p35 = p34; parameter Integer p36 = p35; parameter Integer p37 = p36; parameter Integer p38 = p37; parameter Integer p39 = p38; parameter Integer p40 = p39; parameter Integer p41 = p40; parameter Integer p42 = p41; parameter Integer p43 = p42; parameter Integer p44 = p43; parameter Integer p45 = p44; parameter Integer p46 = p45; parameter Integer p47 = p46; parameter Integer p48 = p47; parameter Integer p49 = p48; parameter Integer p50 = p49; parameter Integer p51 = p50; parameter Integer p52 = p51; parameter Integer p53 = p52; parameter Integer p54 = p53; parameter Integer p55 = p54; parameter Integer p56 = p55; parameter Integer p57 = p56; parameter Integer p58 = p57; parameter Integer p59 = p58; parameter Integer p60 = p59; parameter Integer p61 = p60; parameter Integer p62 = p61; parameter Integer p63 = p62; parameter Integer p64 = p63; end M; ? # ;\n\
block M parameter Integer p0 = 1; parameter Integer p1 = p0; parameter Integer p2 = p1; parameter Integer p3 = p2; parameter Integer p4 = p3; parameter Integer p5 = p4; parameter Integer p6 = p5; parameter Integer p7 = p6; parameter Integer p8 = p7; parameter Integer p9 = p8; parameter Integer p10 = p9; parameter Integer p11 = p10; parameter Integer p12 = p11; parameter Integer p13 = p12; parameter Integer p14 = p13; parameter Integer p15 = p14; parameter Integer p16 = p15; parameter Integer p17 = p16; parameter Integer p18 = p17; parameter Integer p19 = p18; parameter Integer p20 = p19; parameter Integer p21 = p20; parameter Integer p22 = p21; parameter Integer p23 = p22; parameter Integer p24 = p23; parameter Integer p25 = p24; parameter Integer p26 = p25; parameter Integer p27 = p26; parameter Integer p28 = p27; parameter Integer p29 = p28; parameter Integer p30 = p29; parameter Integer p31 = p30; parameter Integer p32 = p31; parameter Integer p33 = p32; parameter Integer p34 = p33; parameter Integer p35 = p34; parameter Integer p36 = p35; parameter Integer p37 = p36; parameter Integer p38 = p37; parameter Integer p39 = p38; parameter Integer p40 = p39; parameter Integer p41 = p40; parameter Integer p42 = p41; parameter Integer p43 = p42; parameter Integer p44 = p43; parameter Integer p45 = p44; parameter Integer p46 = p45; parameter Integer p47 = p46; parameter Integer p48 = p47; parameter Integer p49 = p48; parameter Integer p50 = p49; parameter Integer p51 = p50; parameter Integer p52 = p51; parameter Integer p53 = p52; parameter Integer p54 = p53; parameter Integer p55 = p54; parameter Integer p56 = p55; parameter Integer p57 = p56; parameter Integer p58 = p57; parameter Integer p59 = p58; parameter Integer p60 = p59; parameter Integer p61 = p60; parameter Integer p62 = p61; parameter Integer p63 = p62; parameter Integer p64 = p63; parameter Integer p65 = p64; end M; ? #p65:C29\n\
block M parameter Integer k; end M; ? #k:C31\n\
block M parameter Integer k = 1; end M; ? # ;\n\
block M parameter Integer k = 1.5; end M; ? #k:C26\n\
block M parameter Integer k[2] = {1, 2, 3}; end M; ? #k:C25\n\
block M parameter Integer k[2] = {1, 2}; end M; ? # ;\n\
block M parameter Real k = 1 / 2; end M; ? # ;\n\
block M RI u(unit = \"aaaaaaaaaaaaaaaaaaaaaaaaaaaaaaaaaaaaaaaaaaaaaaaaaaaaaaaaaaaaaaaa\"); end M; ? # ; #u:aaaaaaaaaaaaaaaaaaaaaaaaaaaaaaaaaaaaaaaaaaaaaaaaaaaaaaaaaaaaaaaa\n\
block M CDL.Reals.Hysteresis h(uLow = 1, uHigh = 1); end M; ? #h:C32\n\
block M CDL.Reals.Hysteresis h(uHigh = 1); end M; ? #h.uLow:C31\n\
block M CDL.Reals.Hysteresis h(uLow = 0, uHigh = 1); end M; ? # #h ; #h.u #h.y\n\
block B RI u; end B; block A B b[2]; end A; block M A a[2, 2]; end M; ? # #a[1,1] #a[1,1].b[1] #a[1,1].b[2] #a[1,2] #a[1,2].b[1] #a[1,2].b[2] #a[2,1] #a[2,1].b[1] #a[2,1].b[2] #a[2,2] #a[2,2].b[1] #a[2,2].b[2] ; #a[1,1].b[1].u #a[1,1].b[2].u #a[1,2].b[1].u #a[1,2].b[2].u #a[2,1].b[1].u #a[2,1].b[2].u #a[2,2].b[1].u #a[2,2].b[2].u\n\
block B end B; block A B b[1, 2]; RI v[2, 1]; end A; block M A a[2]; end M; ? # #a[1] #a[1].b[1,1] #a[1].b[1,2] #a[2] #a[2].b[1,1] #a[2].b[1,2] ; #a[1].v[1,1] #a[1].v[2,1] #a[2].v[1,1] #a[2].v[2,1]\n\
block A end A; block M A a(x = 1); A b[1.5]; end M; ? #a:C22\n\
block A end A; block M A b[1.5]; A a(x = 1); end M; ? #b:C26\n\
block A final parameter Integer x = 1; end A; block M A a(x = 2); parameter Integer k = 1 / 0; end M; ? #a.x:C24\n\
block A final parameter Integer x = 1; end A; block M parameter Integer k = 1 / 0; A a(x = 2); end M; ? #k:C30\n\
block A parameter Integer x = 1; end A; block B A a; end B; block C B b(final a(x = 1)); end C; block M C c(b(a(x = 2))); end M; ? #c.b.a.x:C24\n\
block A parameter Integer x = 1; end A; block B A a; end B; block C B b(a(x = 1)); end C; block M C c(b(a(x = 2))); end M; ? # #c #c.b #c.b.a ;\n\
block K RI u; end K; block B K k(final u(unit = \"K\")); end B; block M B b(k(u(unit = \"m\"))); end M; ? #b.k.u:C24\n\
block K RI u; end K; block B K k(u(unit = \"K\")); end B; block M B b(k(u(unit = \"m\"))); end M; ? # #b #b.k ; #b.k.u:m";

// Models that are too large.
pub const TOO_LARGE: &str = "\
block A end A; block M A a[100, 199]; A b[100]; end M; ? #b[100]:C20\n\
block M RI u[256, 256]; RI v[256, 256]; RI w[256, 256]; RI x[3393]; end M; ? #x:C20\n\
block M RI u[256, 256]; RI v[256, 256]; RI w[256, 256]; BI x[3392]; CDL.Logical.Not n; end M; ? #n:C20";

// Behind `?` the numbers of the instances and of the elements.
pub const COUNTS: &str = "\
block A end A; block M A a[100, 199]; A b[99]; end M; ? 20000 0\n\
block M RI u[256, 256]; RI v[256, 256]; RI w[256, 256]; BI x[3392]; end M; ? 1 200000";
