// Texts, and behind `?` what the statements of their block M and of its components answer: the wires, each as its scope, a colon and its
// two ends, or `none`; else the path of the instance, the rule that is broken first, and the statement that breaks it. `RI` and the like
// stand for connectors, and `CDL.` for the library's blocks. The answers were worked out apart from the program.
pub const CASES: &str = "\
block M RI u; end M; ? none\n\
block M RI u; RO y; equation connect(u,y); end M; ? #:#u=#y\n\
block M RI u; RO y; equation connect(y,u); connect(u,y); end M; ? #:#y=#u #:#u=#y\n\
block M RI u; equation connect(u,x); end M; ? #:C40 connect(u,x)\n\
block M RI u; equation connect(x,u); end M; ? #:C40 connect(x,u)\n\
block M parameter Integer k = 1; RI u; equation connect(u,k); end M; ? #:C40 connect(u,k)\n\
block A RI u; end A; block M A a; RI u; equation connect(u,a); end M; ? #:C40 connect(u,a)\n\
block A RI u; end A; block M A a; RI u; equation connect(u,a.x); end M; ? #:C40 connect(u,a.x)\n\
block A RI u; end A; block M A a; RI u; equation connect(u,A); end M; ? #:C40 connect(u,A)\n\
block A parameter Integer k = 1; RI u; end A; block M A a; RI u; equation connect(u,a.k); end M; ? #:C40 connect(u,a.k)\n\
block M RI u; RO y; equation connect(u.y,y); end M; ? #:C40 connect(u.y,y)\n\
block B RI u; end B; block A B b; end A; block M A a; RI u; equation connect(u,a.b.u); end M; ? #:C40 connect(u,a.b.u)\n\
block M CDL.Reals.AddParameter g(p = 1); RI u; equation connect(u,g.x); end M; ? #:C40 connect(u,g.x)\n\
block M CDL.Reals.AddParameter g(p = 1); RI u; RO y; equation connect(u,g.u); connect(g.y,y); end M; ? #:#u=#g.u #:#g.y=#y\n\
block A RI u; end A; block M A a if false; RI u; equation connect(u,a.x); end M; ? #:C40 connect(u,a.x)\n\
block A RI u; end A; block M A a if false; RI u if false; equation connect(a.u,x); end M; ? #:C40 connect(a.u,x)\n\
block A RI u; end A; block M A a[2]; RI u; equation connect(a[3].u,x); end M; ? #:C40 connect(a[3].u,x)\n\
block M RI u if false; RO y; equation connect(u,y); end M; ? none\n\
block M RI u; RO y if false; equation connect(u,y); end M; ? none\n\
block A RI u; end A; block M A a if false; RI u; equation connect(u,a.u); end M; ? none\n\
block A RI u; end A; block M A a if false; RI u; equation connect(u,a[1].u); end M; ? none\n\
block M RI u if false; RO y; equation connect(u[7],y); end M; ? none\n\
block A RI u; end A; block M A a[2]; RI u if false; equation connect(a[3].u,u); end M; ? none\n\
block M RI u[2] if false; RO y; equation connect(u,y[5]); end M; ? none\n\
block A RI u; end A; block M A a[2]; RI u; equation connect(u,a[3].u); end M; ? #:C41 connect(u,a[3].u)\n\
block A RI u; end A; block M A a[2]; RI u; equation connect(u,a[0].u); end M; ? #:C41 connect(u,a[0].u)\n\
block A RI u; end A; block M A a[2]; RI u; equation connect(u,a[-1].u); end M; ? #:C41 connect(u,a[-1].u)\n\
block A RI u; end A; block M A a[2]; RI u; equation connect(u,a[1,1].u); end M; ? #:C41 connect(u,a[1,1].u)\n\
block A RI u; end A; block M A a[2]; RI u; equation connect(u,a[1.5].u); end M; ? #:C41 connect(u,a[1.5].u)\n\
block A RI u; end A; block M A a[2]; RI u; equation connect(u,a[true].u); end M; ? #:C41 connect(u,a[true].u)\n\
block A RI u; end A; block M A a[2]; RI u; equation connect(u,a[{1}].u); end M; ? #:C41 connect(u,a[{1}].u)\n\
block A RI u; end A; block M A a[2]; RI u; equation connect(u,a[1/0].u); end M; ? #:C41 connect(u,a[1/0].u)\n\
block A RI u; end A; block M A a[2]; RI u; equation connect(u,a[k].u); end M; ? #:C41 connect(u,a[k].u)\n\
block A RI u; end A; block M A a[2]; RI u; equation connect(u,a[1:3].u); end M; ? #:C41 connect(u,a[1:3].u)\n\
block A RI u; end A; block M A a; RI u; equation connect(u,a[1].u); end M; ? #:C41 connect(u,a[1].u)\n\
block A RI u if false; end A; block M A a; A b[2]; equation connect(a.u,b[3].u); end M; ? #:C41 connect(a.u,b[3].u)\n\
block A parameter Boolean t = true; RI u if t; end A; block M A a[2](t = {true, false}); RI v[2]; equation connect(v,a.u); connect(v[1],a[1].u); connect(v[2],a[2].u); end M; ? #:#v[1]=#a[1].u\n\
block A RI u if false; end A; block M A a; RI v[2]; equation connect(v[3],a.u); end M; ? none\n\
block A RI u if false; end A; block M A a; RI v[2]; equation connect(v[1],a.u[9]); end M; ? none\n\
block M RI u[2]; RO y; equation connect(u[3],y); end M; ? #:C41 connect(u[3],y)\n\
block M RI u[2]; RO y[3]; equation connect(u[3],y); end M; ? #:C41 connect(u[3],y)\n\
block M RI u[2]; RO y; equation connect(u,y[1]); end M; ? #:C41 connect(u,y[1])\n\
block M RI u[2]; RO y; equation connect(u[1],y[1]); end M; ? #:C41 connect(u[1],y[1])\n\
block A RI u; end A; block M A a; RI v; equation connect(v,a.u[1]); end M; ? #:C41 connect(v,a.u[1])\n\
block M RI u[2]; RO y[2]; equation connect(u[1:0],y[3:2]); end M; ? none\n\
block M RI u[2]; RO y[2]; equation connect(u[2:1],y[1:0]); end M; ? none\n\
block M RI u[2]; RO y[2]; equation connect(u[3:2],y[3:2]); end M; ? none\n\
block M RI u[2]; RO y[2]; equation connect(u[1:2],y[2:1]); end M; ? #:C42 connect(u[1:2],y[2:1])\n\
block M RI u[2]; RO y[2]; equation connect(u[0:-1],y[1:0]); end M; ? #:C41 connect(u[0:-1],y[1:0])\n\
block M RI u[2]; RO y[2]; equation connect(u[3:3],y[1:1]); end M; ? #:C41 connect(u[3:3],y[1:1])\n\
block M RI u[2]; RO y[2]; equation connect(u[4:3],y[1:0]); end M; ? #:C41 connect(u[4:3],y[1:0])\n\
block M RI u[2]; RO y[2]; equation connect(u[2:0],y[1:0]); end M; ? #:C41 connect(u[2:0],y[1:0])\n\
block M RI u[2]; RO y[2]; equation connect(u[1:0],y[4:3]); end M; ? #:C41 connect(u[1:0],y[4:3])\n\
block M RI u[2]; RO y[2]; equation connect(u[1:true],y[1:1]); end M; ? #:C41 connect(u[1:true],y[1:1])\n\
block M RI u[2]; RO y[2]; equation connect(u[1:2],y[:]); end M; ? #:#u[1]=#y[1] #:#u[2]=#y[2]\n\
block M RI u[2]; RO y[2]; equation connect(u[2:2],y[1:1]); end M; ? #:#u[2]=#y[1]\n\
block M RI u[2]; RO y[2]; equation connect(u[2],y[1]); end M; ? #:#u[2]=#y[1]\n\
block M RI u[2]; RO y[2]; equation connect(u[2],y[1:1]); end M; ? #:C42 connect(u[2],y[1:1])\n\
block M RI u[2]; RO y[2]; equation connect(u,y); end M; ? #:#u[1]=#y[1] #:#u[2]=#y[2]\n\
block A RI u; end A; block M A a[0]; RI v[0]; equation connect(a.u,v); end M; ? none\n\
block A RI u; end A; block M A a[0]; RI v; equation connect(a.u,v); end M; ? #:C42 connect(a.u,v)\n\
block A RI u; end A; block M A a[2]; RI v[0]; equation connect(a[2:1].u,v); end M; ? none\n\
block A RI u[3]; end A; block M A a[0]; RI v[0, 3]; equation connect(a.u,v); end M; ? none\n\
block A RI u[3]; end A; block M A a[0]; RI v[3, 0]; equation connect(a.u,v); end M; ? none\n\
block A RI u[3]; end A; block M A a[0]; RI v[0]; equation connect(a.u[9],v); end M; ? none\n\
block M RI u[2]; RO y[2, 2]; equation connect(u[1:0],y[1:0,:]); end M; ? none\n\
block A parameter Integer n = 1; RI u[n]; end A; block M A a[2](n = {1, 2}); RI v[2]; equation connect(a.u,v); end M; ? #:C42 connect(a.u,v)\n\
block A parameter Integer n = 1; RI u[n]; end A; block M A a[2](n = {1, 2}); RI v[2]; equation connect(v,a.u); end M; ? #:C42 connect(v,a.u)\n\
block A parameter Integer n = 1; RI u[n]; end A; block M A a[2](n = {1, 2}); RI v[2]; equation connect(a[2].u,v); end M; ? #:#a[2].u[1]=#v[1] #:#a[2].u[2]=#v[2]\n\
block A parameter Integer n = 1; RI u[n]; end A; block M A a[2](n = {1, 2}); RI v[2]; equation connect(a.u[1],v); end M; ? #:#a[1].u[1]=#v[1] #:#a[2].u[1]=#v[2]\n\
block A parameter Integer n = 1; RI u[n]; end A; block M A a[2](n = {1, 2}); RI v[2]; equation connect(a.u[2],v); end M; ? #:C41 connect(a.u[2],v)\n\
block A parameter Integer n = 1; RI u[n]; end A; block M A a[2](n = {0, 1}); RI v[0]; equation connect(a[1:1].u,v); end M; ? none\n\
block M RI u[2, 3]; RO y[6]; equation connect(u,y); end M; ? #:C42 connect(u,y)\n\
block M RI u[2, 3]; RO y[3, 2]; equation connect(u,y); end M; ? #:C42 connect(u,y)\n\
block M RI u[2, 3]; RO y[2, 3]; equation connect(u,y); end M; ? #:#u[1,1]=#y[1,1] #:#u[1,2]=#y[1,2] #:#u[1,3]=#y[1,3] #:#u[2,1]=#y[2,1] #:#u[2,2]=#y[2,2] #:#u[2,3]=#y[2,3]\n\
block M RI u[2, 3]; RO y[3]; equation connect(u[2,:],y); end M; ? #:#u[2,1]=#y[1] #:#u[2,2]=#y[2] #:#u[2,3]=#y[3]\n\
block M RI u[2, 3]; RO y[4]; equation connect(u[:,3],y[2:3]); end M; ? #:#u[1,3]=#y[2] #:#u[2,3]=#y[3]\n\
block M RI u[3]; RO y[2, 3]; equation connect(u[2:3],y[2,1:2]); end M; ? #:#u[2]=#y[2,1] #:#u[3]=#y[2,2]\n\
block M RI u[3, 3]; RO y[4, 4]; equation connect(u[2:3,1:2],y[1:2,3:4]); end M; ? #:#u[2,1]=#y[1,3] #:#u[2,2]=#y[1,4] #:#u[3,1]=#y[2,3] #:#u[3,2]=#y[2,4]\n\
block A RI u[2]; end A; block M A a[2]; RI v[2, 2]; equation connect(v,a.u); end M; ? #:#v[1,1]=#a[1].u[1] #:#v[1,2]=#a[1].u[2] #:#v[2,1]=#a[2].u[1] #:#v[2,2]=#a[2].u[2]\n\
block A RI u[2]; end A; block M A a[2]; RI v[4]; equation connect(v,a.u); end M; ? #:C42 connect(v,a.u)\n\
block A RI u[2]; end A; block M A a[2]; RI v[2]; equation connect(v,a.u[2]); end M; ? #:#v[1]=#a[1].u[2] #:#v[2]=#a[2].u[2]\n\
block A RI u; end A; block M A a[2, 2]; RI v[2]; equation connect(v,a[:,2].u); end M; ? #:#v[1]=#a[1,2].u #:#v[2]=#a[2,2].u\n\
block M CDL.Reals.MultiSum s(nin = 2); RI u[2]; RO y; equation connect(u,s.u); connect(s.y,y); end M; ? #:#u[1]=#s.u[1] #:#u[2]=#s.u[2] #:#s.y=#y\n\
block M CDL.Reals.MultiSum s[2](each nin = 2); RI u[2, 2]; equation connect(u,s.u); end M; ? #:#u[1,1]=#s[1].u[1] #:#u[1,2]=#s[1].u[2] #:#u[2,1]=#s[2].u[1] #:#u[2,2]=#s[2].u[2]\n\
block M CDL.Reals.MultiSum s(nin = 2); RI u; equation connect(u,s.u[3]); end M; ? #:C41 connect(u,s.u[3])\n\
block M CDL.Reals.MultiSum s(nin = 2); RI u; equation connect(u,s.u); end M; ? #:C42 connect(u,s.u)\n\
block M parameter Integer k = 2; RI u[3]; RO y[3]; equation connect(u[k],y[k + 1]); end M; ? #:#u[2]=#y[3]\n\
block A parameter Integer k = 1; RI u[2]; RO y; equation connect(u[k],y); end A; block M A a(k = 1); A b(k = 2); end M; ? #a:#a.u[1]=#a.y #b:#b.u[2]=#b.y\n\
block A parameter Integer k = 1; RI u[2]; RO y; equation connect(u[k],y); end A; block M A a(k = 1); A b(k = 3); end M; ? #b:C41 connect(u[k],y)\n\
block A parameter Boolean t = true; RI u if t; RO y; equation connect(u,y); end A; block M A a; A b(t = false); end M; ? #a:#a.u=#a.y\n\
block A RI u; RO y; equation connect(u,y); end A; block M RI u; A a[2]; RO y; equation connect(u,a[1].u); connect(a[2].y,y); end M; ? #:#u=#a[1].u #:#a[2].y=#y #a[1]:#a[1].u=#a[1].y #a[2]:#a[2].u=#a[2].y\n\
block A RI u; equation connect(u,x); end A; block M A a; RI u[2]; RO y; equation connect(u[3],y); end M; ? #:C41 connect(u[3],y)\n\
block A RI u; equation connect(u,x); end A; block B RI u[2]; RO y; equation connect(u[3],y); end B; block M A a; B b; end M; ? #a:C40 connect(u,x)\n\
block A RI u; equation connect(u,x); end A; block B RI u[2]; RO y; equation connect(u[3],y); end B; block M B b; A a; end M; ? #b:C41 connect(u[3],y)\n\
block M RI u[2]; RO y; equation connect(u[1],y); connect(u,y); connect(u,x); end M; ? #:C42 connect(u,y)\n\
block M RI u[2]; RO y; equation connect(u[1],y); connect(u,x); connect(u,y); end M; ? #:C40 connect(u,x)\n\
block M II u[3]; IO y[3]; CDL.Integers.AddParameter d[3](each p = 1); equation for i in 1:3 loop connect(u[i],d[4-i].u); connect(d[i].y,y[i]); end for; end M; ? #:#u[1]=#d[3].u #:#d[1].y=#y[1] #:#u[2]=#d[2].u #:#d[2].y=#y[2] #:#u[3]=#d[1].u #:#d[3].y=#y[3]\n\
block M II u[3]; IO y[3]; CDL.Integers.AddParameter d[3](each p = 1); equation for i in 1:2 loop connect(u[i],d[4-i].u); connect(d[i].y,y[i]); end for; end M; ? #:#u[1]=#d[3].u #:#d[1].y=#y[1] #:#u[2]=#d[2].u #:#d[2].y=#y[2]\n\
block M II u[3]; IO y[3]; CDL.Integers.AddParameter d[3](each p = 1); equation for i in 3:1 loop connect(u[i],d[4-i].u); connect(d[i].y,y[i]); end for; end M; ? none\n\
block M II u[3]; IO y[3]; CDL.Integers.AddParameter d[3](each p = 1); equation for i in 1:4 loop connect(u[i],d[4-i].u); connect(d[i].y,y[i]); end for; end M; ? #:C41 connect(u[i],d[4-i].u)\n\
block M II u[3]; IO y[3]; CDL.Integers.AddParameter d[3](each p = 1); equation for i in 1:true loop connect(u[i],d[4-i].u); connect(d[i].y,y[i]); end for; end M; ? #:C41 for i in 1:true loop connect(u[i],d[4-i].u)\n\
block M RI u[3]; RO y[3]; equation for i in 1:3 loop for j in i:3 loop connect(u[i],y[j]); end for; end for; end M; ? #:#u[1]=#y[1] #:#u[1]=#y[2] #:#u[1]=#y[3] #:#u[2]=#y[2] #:#u[2]=#y[3] #:#u[3]=#y[3]\n\
block M RI u[3]; RO y[3]; equation for i in 1:3 loop for j in 1:i - 1 loop connect(u[i],y[j]); end for; connect(u[i],y[i]); end for; end M; ? #:#u[1]=#y[1] #:#u[2]=#y[1] #:#u[2]=#y[2] #:#u[3]=#y[1] #:#u[3]=#y[2] #:#u[3]=#y[3]\n\
block M RI u; equation for i in 1:0 loop connect(u,x); end for; end M; ? none\n\
block M RI u; equation for i in 1:1 loop connect(u,x); end for; end M; ? #:C40 connect(u,x)\n\
block M RI u; equation for i in {1}:2 loop end for; end M; ? #:C41 for i in {1}:2 loop end for\n\
block M RI u; equation for i in 1:2.0 loop end for; end M; ? #:C41 for i in 1:2.0 loop end for\n\
block M RI u; equation for i in 1:x loop end for; end M; ? #:C41 for i in 1:x loop end for\n\
block M RI u; equation for i in 1:{1, 2} loop end for; end M; ? #:C41 for i in 1:{1, 2} loop end for\n\
block M RI u; equation for i in true:1 loop end for; end M; ? #:C41 for i in true:1 loop end for\n\
block M RI u[3]; RO y[3]; equation for i in 1:2 loop for j in i:true loop end for; end for; end M; ? #:C41 for j in i:true loop end for\n\
block M RI u[3]; RO y[3]; equation for i in 1:0 loop for j in i:true loop end for; end for; end M; ? none\n\
block M parameter Integer i = 3; RI u[3]; RO y[3]; equation for i in 1:2 loop connect(u[i],y[i]); end for; connect(u[i],y[i]); end M; ? #:#u[1]=#y[1] #:#u[2]=#y[2] #:#u[3]=#y[3]\n\
block M parameter Integer i = 2; RI u[3]; RO y[3]; equation for i in i:3 loop connect(u[i],y[i]); end for; end M; ? #:#u[2]=#y[2] #:#u[3]=#y[3]\n\
block M RI u[3]; RO y[3]; equation for i in 1:2 loop for i in 3:3 loop connect(u[i],y[1]); end for; connect(u[i],y[2]); end for; end M; ? #:#u[3]=#y[1] #:#u[1]=#y[2] #:#u[3]=#y[1] #:#u[2]=#y[2]\n\
block M RI u[3]; RO y[3]; equation for i in 1:1 loop connect(u[i.k],y[1]); end for; end M; ? #:C41 connect(u[i.k],y[1])\n\
block M RI u[3]; RO y[3]; equation for i in 1:1 loop end for; connect(u[i],y[1]); end M; ? #:C41 connect(u[i],y[1])\n\
block M RI u[1]; RO y[2]; equation for i in 1:2 loop connect(u[i],y[1]); connect(u[1],y[i + 1]); end for; end M; ? #:C41 connect(u[i],y[1])\n\
block M RI u[1]; RO y[2]; equation for i in 1:2 loop connect(u[i],y[1]); connect(u[1],y[i + 2]); end for; end M; ? #:C41 connect(u[1],y[i + 2])\n\
block M RI u[3]; RO y[3]; equation for i in -1:1 loop connect(u[i + 2],y[2 - i]); end for; end M; ? #:#u[1]=#y[3] #:#u[2]=#y[2] #:#u[3]=#y[1]\n\
block A parameter Integer n = 1; RI u[n]; RO y[n]; equation for i in 1:n loop connect(u[i],y[i]); end for; end A; block M A a(n = 1); A b(n = 2); end M; ? #a:#a.u[1]=#a.y[1] #b:#b.u[1]=#b.y[1] #b:#b.u[2]=#b.y[2]\n\
block A parameter Boolean t = true; RI u if t; end A; block M A a[2](t = {true, false}); RI v[2]; equation for i in 1:2 loop connect(v[i],a[i].u); end for; end M; ? #:#v[1]=#a[1].u\n\
block M RI u[3]; RO y[3]; equation for i in 1:2 loop connect(u[i:i + 1],y[i:i + 1]); end for; end M; ? #:#u[1]=#y[1] #:#u[2]=#y[2] #:#u[2]=#y[2] #:#u[3]=#y[3]";

// Many turns; behind `?` how many wires there are, or the same of a broken rule.
pub const MANY_TURNS: &str = "\
block M RI u; equation for i in -2147483647:2147483647 loop end for; end M; ? #:C39 for i in -2147483647:2147483647 loop end for\n\
block M RI u; equation for i in 1:400001 loop end for; end M; ? #:C39 for i in 1:400001 loop end for\n\
block M RI u; equation for i in 1:400000 loop end for; for j in 1:0 loop end for; for k in 5:5 loop end for; end M; ? #:C39 for k in 5:5 loop end for\n\
block M II u[3]; IO y[3]; CDL.Integers.AddParameter d[3](each p = 1); equation for j in 1:400001 loop end for; for i in 1:3 loop connect(u[i],d[4-i].u); connect(d[i].y,y[i]); end for; end M; ? #:C39 for j in 1:400001 loop end for\n\
block M II u[3]; IO y[3]; CDL.Integers.AddParameter d[3](each p = 1); equation for j in 1:399997 loop end for; for i in 1:3 loop connect(u[i],d[4-i].u); connect(d[i].y,y[i]); end for; end M; ? 6 wires\n\
block A equation for i in 1:200000 loop end for; end A; block M A a; A b; A c; end M; ? #c:C39 for i in 1:200000 loop end for\n\
block M RI u; equation for i in 1:632 loop for j in 1:632 loop end for; end for; end M; ? #:C39 for j in 1:632 loop end for";

// The last wires that there may be, and one more.
pub const MANY_WIRES: &str = "\
block M RI u[256, 256]; RO y[256, 256]; equation for i in 1:6 loop connect(u,y); end for; connect(u[1:26,:],y[1:26,:]); connect(u[1,1:128],y[1,1:128]); connect(u[1,1],y[1,1]); end M; ? #:C47 connect(u[1,1],y[1,1])";
