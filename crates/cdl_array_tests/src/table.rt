// A call, its arguments and its answer: an array, or a rule. Each fault stands alone beside its nearest value, and two faults in
// both orders.
pub const CASES: &str = "+ I:2 I:3 = I:5\n\
    + I:2147483647 I:0 = I:2147483647\n\
    + I:2147483647 I:1 = C30\n\
    + I:-2147483647 I:0 = I:-2147483647\n\
    + I:-2147483647 I:-1 = C30\n\
    + I:1 R:500000 = R:1500000\n\
    + R:500000 I:1 = R:1500000\n\
    + R:10000000000000000 R:0 = R:10000000000000000\n\
    + R:10000000000000000 R:1 = C30\n\
    + B:1 I:1 = C26\n\
    + I:1 B:1 = C26\n\
    + S:a S:b = C26\n\
    + C:1 C:1 = C26\n\
    + I[1]:1 I:1 = C25\n\
    + I:1 I[1]:1 = C25\n\
    + I[1]:1 B:1 = C25\n\
    + B:1 I[1]:1 = C25\n\
    + I[0]: I:1 = C25\n\
    - I:2 I:3 = I:-1\n\
    - I:-2147483647 I:1 = C30\n\
    - I:2147483647 I:-1 = C30\n\
    - I:2147483647 I:2147483647 = I:0\n\
    - R:1 I:1 = R:-999999\n\
    - R:-10000000000000000 R:1 = C30\n\
    - S:a I:1 = C26\n\
    - I[1]:1 I[1]:1 = C25\n\
    * I:46340 I:46341 = I:2147441940\n\
    * I:65536 I:32768 = C30\n\
    * I:-65536 I:32768 = C30\n\
    * I:2147483647 I:-1 = I:-2147483647\n\
    * I:-2147483647 I:-2147483647 = C30\n\
    * I:3 R:500000 = R:1500000\n\
    * R:1 R:500000 = R:0\n\
    * R:3 R:500000 = R:2\n\
    * R:-3 R:500000 = R:-2\n\
    * R:10000000000000000 R:1000001 = C30\n\
    * B:1 R:1 = C26\n\
    * R:1 R[1]:1 = C25\n\
    / I:1 I:3 = R:333333\n\
    / I:4 I:2 = R:2000000\n\
    / I:1 I:0 = C30\n\
    / R:1000000 R:0 = C30\n\
    / R:1 I:2 = R:0\n\
    / R:3 I:2 = R:2\n\
    / I:1 I:-3 = R:-333333\n\
    / I:2147483647 R:1 = C30\n\
    / B:1 I:0 = C26\n\
    / I:0 B:1 = C26\n\
    / I[1]:1 I:0 = C25\n\
    / I:1 I[1]:0 = C25\n\
    < I:1 I:2 = B:1\n\
    < I:2 I:2 = B:0\n\
    < I:1 R:1000001 = B:1\n\
    < R:1000000 I:1 = B:0\n\
    < S:a S:b = C26\n\
    < B:0 B:1 = C26\n\
    < C:1 C:2 = C26\n\
    < I:1 B:1 = C26\n\
    < I[1]:1 I:2 = C25\n\
    <= I:2 I:2 = B:1\n\
    <= I:3 I:2 = B:0\n\
    <= R:1 R:1 = B:1\n\
    <= B:1 B:1 = C26\n\
    <= I:1 I[1]:1 = C25\n\
    > I:3 I:2 = B:1\n\
    > I:2 I:2 = B:0\n\
    > R:2 R:1 = B:1\n\
    > S:b S:a = C26\n\
    > I[1]:1 S:a = C25\n\
    >= I:2 I:2 = B:1\n\
    >= I:1 I:2 = B:0\n\
    >= R:1 R:2 = B:0\n\
    >= C:1 C:1 = C26\n\
    >= I[0]: I:1 = C25\n\
    == I:1 I:1 = B:1\n\
    == I:1 I:2 = B:0\n\
    == I:1 R:1000000 = B:1\n\
    == R:1000001 I:1 = B:0\n\
    == R:5 R:5 = B:1\n\
    == B:1 B:1 = B:1\n\
    == B:0 B:0 = B:1\n\
    == B:1 B:0 = B:0\n\
    == S:a S:a = B:1\n\
    == S:a S:ab = B:0\n\
    == C:1 C:1 = B:1\n\
    == C:1 C:2 = B:0\n\
    == C:1 D:1 = C26\n\
    == B:1 I:1 = C26\n\
    == S:a I:1 = C26\n\
    == I[1]:1 I[1]:1 = C25\n\
    == C:1 D[1]:1 = C25\n\
    <> I:1 I:1 = B:0\n\
    <> I:1 I:2 = B:1\n\
    <> I:1 R:1000000 = B:0\n\
    <> B:1 B:0 = B:1\n\
    <> S:a S:ab = B:1\n\
    <> C:1 C:1 = B:0\n\
    <> C:1 D:1 = C26\n\
    <> I:1 I[1]:1 = C25\n\
    and B:1 B:1 = B:1\n\
    and B:1 B:0 = B:0\n\
    and B:0 B:1 = B:0\n\
    and B:1 I:1 = C26\n\
    and I:1 B:1 = C26\n\
    and B:1 B[1]:1 = C25\n\
    and B[1]:1 I:1 = C25\n\
    or B:0 B:0 = B:0\n\
    or B:0 B:1 = B:1\n\
    or B:1 B:0 = B:1\n\
    or B:0 S:a = C26\n\
    or R:1 B:0 = C26\n\
    or B:0 B[1]:1 = C25\n\
    and? B:0 = false\n\
    and? B:1 = both\n\
    and? I:1 = C26\n\
    and? B[1]:1 = C25\n\
    and? I[1]:1 = C25\n\
    or? B:1 = true\n\
    or? B:0 = both\n\
    or? S:a = C26\n\
    or? B[0]: = C25\n\
    +? B[1]:1 = both\n\
    + I:5 = I:5\n\
    + R:-5 = R:-5\n\
    + B:1 = C26\n\
    + I[1]:1 = C25\n\
    - I:2147483647 = I:-2147483647\n\
    - I:-2147483647 = I:2147483647\n\
    - R:10000000000000000 = R:-10000000000000000\n\
    - S:a = C26\n\
    - I[1]:1 = C25\n\
    - B[1]:1 = C25\n\
    not B:1 = B:0\n\
    not B:0 = B:1\n\
    not I:1 = C26\n\
    not B[1]:1 = C25\n\
    not I[1]:1 = C25\n\
    if B:1 = true\n\
    if B:0 = false\n\
    if I:1 = C26\n\
    if B[1]:1 = C26\n\
    lit I:1 I:2 = I[2]:1,2\n\
    lit I:1 R:500000 = R[2]:1000000,500000\n\
    lit R:5 I:1 = R[2]:5,1000000\n\
    lit B:1 B:0 = B[2]:1,0\n\
    lit S:a S:b = S[2]:a,b\n\
    lit C:1 C:2 = C[2]:1,2\n\
    lit C:1 D:1 = C26\n\
    lit I:1 B:1 = C26\n\
    lit B:1 I:1 = C26\n\
    lit I:1 R:1 B:1 = C26\n\
    lit I[2]:1,2 I[2]:3,4 = I[2,2]:1,2,3,4\n\
    lit I[2]:1,2 R[2]:5,6 = R[2,2]:1000000,2000000,5,6\n\
    lit I[2]:1,2 I[3]:1,2,3 = C25\n\
    lit I:1 I[1]:1 = C25\n\
    lit I[1]:1 I:1 = C25\n\
    lit I[1,1]:1 = C25\n\
    lit I[2]:1,2 B[3]:1,1,1 = C25\n\
    lit I:1 B:1 I[1]:1 = C25\n\
    lit I[0]: I[0]: = I[2,0]:\n\
    lit I[0]: R[0]: = R[2,0]:\n\
    lit I[0]: B[0]: = C26\n\
    lit = C25\n\
    lit I[4096]:0* B[4096]:0* = C26\n\
    sub I[3]:4,5,6 I:1 = I:4\n\
    sub I[3]:4,5,6 I:3 = I:6\n\
    sub I[3]:4,5,6 I:0 = C30\n\
    sub I[3]:4,5,6 I:4 = C30\n\
    sub I[3]:4,5,6 I:-1 = C30\n\
    sub I[3]:4,5,6 I:2147483647 = C30\n\
    sub I[3]:4,5,6 R:1000000 = C26\n\
    sub I[3]:4,5,6 B:1 = C26\n\
    sub I[3]:4,5,6 I[1]:1 = C25\n\
    sub I[3]:4,5,6 B[1]:1 = C25\n\
    sub I[3]:4,5,6 = C25\n\
    sub I[3]:4,5,6 I:1 I:1 = C25\n\
    sub I:5 I:1 = C25\n\
    sub I:5 = I:5\n\
    sub I[2,3]:1,2,3,4,5,6 I:2 I:1 = I:4\n\
    sub I[2,3]:1,2,3,4,5,6 I:1 I:3 = I:3\n\
    sub I[2,3]:1,2,3,4,5,6 I:2 I:3 = I:6\n\
    sub I[2,3]:1,2,3,4,5,6 I:3 I:1 = C30\n\
    sub I[2,3]:1,2,3,4,5,6 I:1 I:4 = C30\n\
    sub I[2,3]:1,2,3,4,5,6 I:0 B:1 = C26\n\
    sub I[2,3]:1,2,3,4,5,6 B:1 I:0 = C26\n\
    sub I[2,3]:1,2,3,4,5,6 B:1 I[1]:1 = C25\n\
    sub I[2,3]:1,2,3,4,5,6 I[1]:1 B:1 = C25\n\
    sub I[2,3]:1,2,3,4,5,6 I:9 I[1]:1 = C25\n\
    sub I[2,3]:1,2,3,4,5,6 I:1 = C25\n\
    sub I[1]:1 I:1 I:1 I:1 = C25\n\
    sub R[2]:5,6 I:2 = R:6\n\
    sub S[2]:a,b I:2 = S:b\n\
    sub D[2]:1,2 I:2 = D:2\n\
    sub I[0]: I:1 = C30\n\
    abs I:-5 = I:5\n\
    abs I:5 = I:5\n\
    abs I:-2147483647 = I:2147483647\n\
    abs R:-10000000000000000 = R:10000000000000000\n\
    abs B:1 = C26\n\
    abs I[1]:1 = C25\n\
    abs B[1]:1 = C25\n\
    min I:1 I:2 = I:1\n\
    min I:2 I:-2147483647 = I:-2147483647\n\
    min I:1 R:2500000 = R:1000000\n\
    min R:2500000 I:1 = R:1000000\n\
    min B:1 I:1 = C26\n\
    min I:1 S:a = C26\n\
    min I[1]:1 I:1 = C25\n\
    min I:1 I[1]:1 = C25\n\
    min B:1 I[1]:1 = C25\n\
    max I:3 I:2 = I:3\n\
    max I:1 R:2500000 = R:2500000\n\
    max R:5 R:-5 = R:5\n\
    max C:1 C:2 = C26\n\
    max I[1]:1 B:1 = C25\n\
    min I[3]:3,1,2 = I:1\n\
    min R[2]:5,-5 = R:-5\n\
    min I[0]: = C30\n\
    min B[0]: = C26\n\
    min B[2]:1,0 = C26\n\
    min I:1 = C25\n\
    min I[1,1]:1 = C25\n\
    min B:1 = C25\n\
    max I[3]:3,1,2 = I:3\n\
    max I[1]:-2147483647 = I:-2147483647\n\
    max R[3]:1,3,2 = R:3\n\
    max R[0]: = C30\n\
    max S[1]:a = C26\n\
    max I[0,0]: = C25\n\
    sum I[3]:1,2,3 = I:6\n\
    sum I[0]: = I:0\n\
    sum R[0]: = R:0\n\
    sum B[0]: = C26\n\
    sum I[3]:2147483647,1,-1 = I:2147483647\n\
    sum I[2]:2147483647,1 = C30\n\
    sum I[3]:-2147483647,-2147483647,2147483647 = I:-2147483647\n\
    sum R[3]:10000000000000000,1,-1 = R:10000000000000000\n\
    sum R[2]:10000000000000000,1 = C30\n\
    sum S[1]:a = C26\n\
    sum I:1 = C25\n\
    sum I[1,2]:1,2 = C25\n\
    sum B[1,1]:1 = C25\n\
    size I[3]:1,2,3 I:1 = I:3\n\
    size I[2,3]:0* I:1 = I:2\n\
    size I[2,3]:0* I:2 = I:3\n\
    size B[0]: I:1 = I:0\n\
    size I[3]:1,2,3 I:2 = C25\n\
    size I[3]:1,2,3 I:0 = C25\n\
    size I[3]:1,2,3 I:-1 = C25\n\
    size I:5 I:1 = C25\n\
    size I[3]:1,2,3 R:1000000 = C26\n\
    size I:5 B:1 = C26\n\
    size I[3]:1,2,3 I[1]:1 = C25\n\
    size I[3]:1,2,3 B[1]:1 = C25\n\
    fill I:7 I:3 = I[3]:7,7,7\n\
    fill B:1 I:0 = B[0]:\n\
    fill R:5 I:2 I:1 = R[2,1]:5,5\n\
    fill S:a I:1 = S[1]:a\n\
    fill C:2 I:1 = C[1]:2\n\
    fill I:0 I:4096 = I[4096]:0*\n\
    fill I:0 I:4097 = C28\n\
    fill I:0 I:-1 = C28\n\
    fill I:0 R:0 = C26\n\
    fill I:0 I[1]:1 = C25\n\
    fill I:0 B[1]:1 = C25\n\
    fill I[1]:0 I:1 = C25\n\
    fill I[1]:0 I:5000 = C25\n\
    fill I[1]:0 B:1 = C25\n\
    fill I:0 I:256 I:256 = I[256,256]:0*\n\
    fill I:0 I:256 I:257 = C28\n\
    fill I:0 I:4096 I:16 = I[4096,16]:0*\n\
    fill I:0 I:4096 I:17 = C28\n\
    fill I:0 I:4096 I:0 = I[4096,0]:\n\
    fill I:0 I:1 I:4097 = C28\n\
    fill I:0 I:1 R:1 = C26\n\
    fill I:0 I:1 I[1]:1 = C25\n\
    fill I:0 I:5000 B:1 = C28\n\
    fill I:0 B:1 I:5000 = C26\n\
    fill I:0 I:5000 I[1]:1 = C28\n\
    fill I:0 I[1]:1 I:5000 = C25\n\
    fill I:0 B:1 I[1]:1 = C26\n\
    fill I:0 I[1]:1 B:1 = C25\n\
    integer R:2500000 = I:2\n\
    integer R:-2500000 = I:-3\n\
    integer R:2999999 = I:2\n\
    integer R:-1 = I:-1\n\
    integer R:2147483647999999 = I:2147483647\n\
    integer R:2147483648000000 = C30\n\
    integer R:-2147483647000000 = I:-2147483647\n\
    integer R:-2147483647000001 = C30\n\
    integer I:5 = I:5\n\
    integer B:1 = C26\n\
    integer R[1]:1 = C25\n\
    integer B[1]:1 = C25\n\
    abs = C27\n\
    abs I:1 I:2 = C27\n\
    min = C27\n\
    min I:1 I:2 I:3 = C27\n\
    max = C27\n\
    sum = C27\n\
    sum I[1]:1 I:1 = C27\n\
    size I[1]:1 = C27\n\
    fill I:1 = C27\n\
    fill I:1 I:1 I:1 I:1 = C27\n\
    integer = C27\n\
    foo I:1 = C27\n\
    Abs I:1 = C27\n\
    ? I:0 = 0\n\
    ? I:4096 = 4096\n\
    ? I:4097 = C28\n\
    ? I:-1 = C28\n\
    ? R:0 = C26\n\
    ? I[1]:1 = C25\n\
    ? B[1]:1 = C25\n\
    # I:5 = 1\n\
    # I[0,5]: = 0\n\
    # I[256,256]:0* = 65536\n\
    # I[257,255]:0* = 65535\n\
    # I[256,257]:0* = C28\n\
    =R I:2 = R:2000000\n\
    =R R:5 = R:5\n\
    =R I[2]:1,2 = R[2]:1000000,2000000\n\
    =R I[0]: = R[0]:\n\
    =R B:1 = C26\n\
    =I I:5 = I:5\n\
    =I R:1000000 = C26\n\
    =I B[0]: = C26\n\
    =B B[2]:1,0 = B[2]:1,0\n\
    =S S:a = S:a\n\
    =C C:1 = C:1\n\
    =C D:1 = C26\n\
    =D I:1 = C26";
