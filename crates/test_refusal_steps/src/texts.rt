//! The log of 100 calls, and what must come of it: reckoned call by call by a reading of the rules in Python, without
//! the executor. The digests are SHA-256 sums.

/// The first 50 calls, a line each. Many clash, and each tenth makes the notes anew.
pub const FIRST_CALLS: &str = r#"["call","pay",[4,5,30]]
["call","pay",[4,3,47]]
["call","pay",[6,5,64]]
["call","pay",[3,2,90]]
["call","pay",[2,1,6]]
["call","pay",[2,1,47]]
["call","peek",[3]]
["call","pay",[6,1,71]]
["call","peek",[1]]
["call","turn",["turn"]]
["call","pay",[1,4,32]]
["call","peek",[3]]
["call","peek",[6]]
["call","pay",[1,4,107]]
["call","pay",[6,4,30]]
["call","peek",[3]]
["call","pay",[5,2,110]]
["call","pay",[1,3,41]]
["call","pay",[4,6,87]]
["call","turn",["turn"]]
["call","pay",[4,4,27]]
["call","pay",[6,5,13]]
["call","pay",[3,4,9]]
["call","pay",[1,1,40]]
["call","pay",[2,6,16]]
["call","pay",[2,1,90]]
["call","pay",[3,5,74]]
["call","peek",[1]]
["call","pay",[6,1,33]]
["call","turn",["turn"]]
["call","pay",[3,5,119]]
["call","pay",[2,2,22]]
["call","peek",[5]]
["call","pay",[4,4,125]]
["call","peek",[3]]
["call","pay",[6,1,70]]
["call","peek",[2]]
["call","pay",[2,6,127]]
["call","pay",[4,6,112]]
["call","turn",["turn"]]
["call","pay",[4,6,122]]
["call","peek",[4]]
["call","peek",[4]]
["call","pay",[1,2,47]]
["call","pay",[6,5,87]]
["call","pay",[1,3,20]]
["call","peek",[1]]
["call","pay",[4,3,22]]
["call","pay",[4,3,75]]
["call","turn",["turn"]]
"#;

/// The other 50 calls.
pub const SECOND_CALLS: &str = r#"["call","pay",[3,3,42]]
["call","pay",[4,4,2]]
["call","pay",[1,2,121]]
["call","pay",[6,3,29]]
["call","peek",[4]]
["call","pay",[2,6,3]]
["call","peek",[5]]
["call","peek",[4]]
["call","pay",[3,1,44]]
["call","turn",["turn"]]
["call","pay",[4,3,103]]
["call","pay",[5,1,52]]
["call","pay",[6,1,18]]
["call","pay",[5,4,78]]
["call","pay",[3,4,101]]
["call","peek",[3]]
["call","pay",[5,6,1]]
["call","peek",[3]]
["call","pay",[3,3,127]]
["call","turn",["turn"]]
["call","pay",[1,4,58]]
["call","peek",[1]]
["call","pay",[6,6,85]]
["call","pay",[2,1,123]]
["call","pay",[1,2,93]]
["call","pay",[6,5,62]]
["call","pay",[5,1,53]]
["call","peek",[6]]
["call","pay",[1,2,115]]
["call","turn",["turn"]]
["call","pay",[4,5,81]]
["call","pay",[6,1,74]]
["call","peek",[2]]
["call","peek",[5]]
["call","pay",[5,2,53]]
["call","peek",[2]]
["call","pay",[4,6,121]]
["call","peek",[1]]
["call","pay",[2,4,99]]
["call","turn",["turn"]]
["call","pay",[4,2,116]]
["call","pay",[1,1,120]]
["call","peek",[2]]
["call","peek",[3]]
["call","peek",[2]]
["call","pay",[6,1,2]]
["call","pay",[4,6,84]]
["call","pay",[3,5,95]]
["call","pay",[3,6,56]]
["call","turn",["turn"]]
"#;

/// How many calls there are.
pub const CALLS: u64 = 100;

/// The digest of their reply lines.
pub const REPLIES: &str = "15f994796414f8972630e2c5f200f73a477bead723ebf01585c6298981394c32";

/// The digest of the row lines that they leave.
pub const ROWS: &str = "3e201c3771e2a0a3b0d5b5a41584b74ac39c2de1b674f326641ed31e9d2beaf4";

/// A call whose footprint is found.
pub const FOUND_CALL: &str = r#"["call","renew",["x"]]
"#;

/// The digest of the lines of their plans, with the plan of the call whose footprint is found between the halves.
pub const PLANS: &str = "c21fd6ee47bf3064ba19387d9787aee7104e1ca035fc6a66a55606ab317b6dec";

/// The report of the two halves as two batches.
pub const REPORT: &str = "0 commit 70\n\
1 commit 23\n\
2 commit 36\n\
3 commit 57\n\
4 commit 184\n\
5 commit 137\n\
6 commit 57\n\
7 abort 100\n\
8 commit 153\n\
9 commit 3 2 24 x7475726e\n\
10 commit 121\n\
11 commit 57\n\
12 commit 36\n\
13 commit 14\n\
14 commit 6\n\
15 commit 57\n\
16 commit 84\n\
17 abort 100\n\
18 commit 105\n\
19 commit 24 2 45 x7475726e\n\
20 commit 78\n\
21 commit 80\n\
22 commit 48\n\
23 abort 100\n\
24 commit 231\n\
25 commit 141\n\
26 abort 100\n\
27 commit 104\n\
28 commit 63\n\
29 commit 45 2 66 x7475726e\n\
30 abort 100\n\
31 commit 119\n\
32 commit 97\n\
33 commit 16\n\
34 commit 48\n\
35 abort 100\n\
36 commit 163\n\
37 commit 36\n\
38 commit 154\n\
39 commit 66 2 87 x7475726e\n\
40 commit 32\n\
41 commit 32\n\
42 commit 32\n\
43 commit 90\n\
44 commit 337\n\
45 commit 70\n\
46 commit 70\n\
47 commit 10\n\
48 abort 100\n\
49 commit 87 2 108 x7475726e\n\
batch 1 rows 47e0f3c670d2c1b1647a361fc1c65f911245d3d3b8a85a5d758afa9d44ca16fe replies \
950b8fbf4fe4430d03214f724f4f2c4d9c4c53a206ffb02aec66be08d5767374\n\
50 commit 48\n\
51 commit 8\n\
52 abort 100\n\
53 commit 308\n\
54 commit 12\n\
55 commit 80\n\
56 commit 184\n\
57 commit 12\n\
58 commit 117\n\
59 commit 108 2 129 x7475726e\n\
60 abort 100\n\
61 commit 132\n\
62 commit 293\n\
63 commit 54\n\
64 commit 16\n\
65 commit 16\n\
66 commit 53\n\
67 commit 16\n\
68 abort 100\n\
69 commit 129 2 150 x7475726e\n\
70 commit 126\n\
71 commit 126\n\
72 commit 209\n\
73 abort 100\n\
74 commit 33\n\
75 commit 317\n\
76 commit 62\n\
77 commit 317\n\
78 abort 100\n\
79 commit 150 2 171 x7475726e\n\
80 commit 168\n\
81 commit 243\n\
82 commit 173\n\
83 commit 143\n\
84 commit 90\n\
85 commit 226\n\
86 commit 47\n\
87 commit 160\n\
88 commit 127\n\
89 commit 171 2 192 x7475726e\n\
90 commit 30\n\
91 commit 40\n\
92 commit 243\n\
93 commit 16\n\
94 commit 243\n\
95 commit 362\n\
96 abort 100\n\
97 abort 100\n\
98 abort 100\n\
99 commit 192 2 213 x7475726e\n\
batch 2 rows 3e201c3771e2a0a3b0d5b5a41584b74ac39c2de1b674f326641ed31e9d2beaf4 replies \
f98254e8d4a649e1a41c670c4a0bcd62845311917cbfad794412e29119f97950\n\
end 100 rows 3e201c3771e2a0a3b0d5b5a41584b74ac39c2de1b674f326641ed31e9d2beaf4 replies \
15f994796414f8972630e2c5f200f73a477bead723ebf01585c6298981394c32\n";
