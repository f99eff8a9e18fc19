//! Forms of packets that several tests read and write.

/// A packet of each kind with each optional part, and then without.
pub const PACKETS: [&str; 14] = [
    "{\"nid_packet\":0,\"nid_vbcmk\":63}",
    "{\"nid_packet\":0,\"nid_vbcmk\":0}",
    "{\"links\":[{\"d_link\":1,\"nid_bg\":2,\"nid_c\":444,\"q_linkorientation\":0,\
\"q_linkreaction\":1,\"q_locacc\":3},{\"d_link\":500,\"nid_bg\":1234,\"q_linkorientation\":1,\
\"q_linkreaction\":2,\"q_locacc\":12}],\"nid_packet\":5,\"q_dir\":1,\"q_scale\":1}",
    "{\"links\":[{\"d_link\":500,\"nid_bg\":1234,\"q_linkorientation\":1,\"q_linkreaction\":2,\
\"q_locacc\":12}],\"nid_packet\":5,\"q_dir\":0,\"q_scale\":2}",
    "{\"danger_point\":{\"d_dp\":50,\"v_releasedp\":126},\"end_speed\":10,\"end_timeout\":60,\
\"end_timer\":{\"d_endtimerstartloc\":200,\"t_endtimer\":40},\"l_endsection\":1000,\
\"nid_packet\":12,\"overlap\":{\"d_ol\":60,\"d_startol\":300,\"t_ol\":20,\"v_releaseol\":127},\
\"q_dir\":1,\"q_scale\":1,\"section_timer\":{\"d_sectiontimerstoploc\":7,\"t_sectiontimer\":30},\
\"sections\":[{\"l_section\":500,\"section_timer\":{\"d_sectiontimerstoploc\":100,\
\"t_sectiontimer\":1023}},{\"l_section\":1}],\"v_main\":24}",
    "{\"end_speed\":0,\"end_timeout\":1023,\"l_endsection\":32767,\"nid_packet\":12,\"q_dir\":0,\
\"q_scale\":2,\"sections\":[],\"v_main\":120}",
    "{\"danger_point\":{\"d_dp\":50,\"v_releasedp\":0},\"end_speed\":0,\"end_timeout\":1023,\
\"l_endsection\":32767,\"nid_packet\":15,\"q_dir\":0,\"q_scale\":2,\
\"sections\":[{\"l_section\":0},{\"l_section\":32767}]}",
    "{\"elements\":[{\"d_gradient\":0,\"g_a\":5,\"q_gdir\":1},{\"d_gradient\":100,\"g_a\":255,\
\"q_gdir\":0}],\"nid_packet\":21,\"q_dir\":2,\"q_scale\":2}",
    "{\"elements\":[{\"d_static\":0,\"differences\":[{\"nc\":1,\"q_diff\":0,\"v_diff\":30}],\
\"q_front\":1,\"v_static\":20},{\"d_static\":10000,\"differences\":[],\"q_front\":0,\
\"v_static\":127}],\"nid_packet\":27,\"q_dir\":0,\"q_scale\":0}",
    "{\"d_leveltr\":32767,\"nid_packet\":41,\"q_dir\":1,\"q_scale\":1,\"transitions\":[\
{\"l_ackleveltr\":300,\"m_leveltr\":1,\"nid_ntc\":8},{\"l_ackleveltr\":0,\"m_leveltr\":3}]}",
    "{\"d_leveltr\":0,\"nid_packet\":41,\"q_dir\":1,\"q_scale\":1,\"transitions\":[\
{\"l_ackleveltr\":0,\"m_leveltr\":0},{\"l_ackleveltr\":0,\"m_leveltr\":2},\
{\"l_ackleveltr\":0,\"m_leveltr\":4}]}",
    "{\"body\":\"\",\"l_packet\":23,\"nid_packet\":44,\"q_dir\":1}",
    "{\"body\":\"a0\",\"l_packet\":26,\"nid_packet\":254,\"q_dir\":0}",
    "{\"body\":\"0123456789abcdef80\",\"l_packet\":88,\"nid_packet\":1,\"q_dir\":2}",
];

/// A position report of each kind: each state of the length, each level, with and without the group
/// before.
pub const REPORTS: [&str; 5] = [
    "{\"d_lrbg\":500,\"l_doubtover\":10,\"l_doubtunder\":11,\"m_level\":3,\"m_mode\":0,\"nid_bg\":1,\
\"nid_c\":2,\"nid_packet\":0,\"q_dirlrbg\":0,\"q_dirtrain\":1,\"q_dlrbg\":2,\"q_length\":0,\
\"q_scale\":1,\"v_train\":24}",
    "{\"d_lrbg\":500,\"l_doubtover\":10,\"l_doubtunder\":11,\"l_trainint\":400,\"m_level\":1,\
\"m_mode\":2,\"nid_bg\":1,\"nid_c\":3,\"nid_ntc\":8,\"nid_packet\":1,\"prv_nid_bg\":2,\"prv_nid_c\":4,\
\"q_dirlrbg\":0,\"q_dirtrain\":2,\"q_dlrbg\":1,\"q_length\":2,\"q_scale\":1,\"v_train\":24}",
    "{\"d_lrbg\":0,\"l_doubtover\":0,\"l_doubtunder\":0,\"l_trainint\":0,\"m_level\":0,\"m_mode\":15,\
\"nid_bg\":16383,\"nid_c\":1023,\"nid_packet\":0,\"q_dirlrbg\":2,\"q_dirtrain\":0,\"q_dlrbg\":1,\
\"q_length\":1,\"q_scale\":0,\"v_train\":127}",
    "{\"d_lrbg\":32767,\"l_doubtover\":1,\"l_doubtunder\":2,\"m_level\":2,\"m_mode\":1,\"nid_bg\":3,\
\"nid_c\":4,\"nid_packet\":1,\"prv_nid_bg\":5,\"prv_nid_c\":6,\"q_dirlrbg\":1,\"q_dirtrain\":1,\
\"q_dlrbg\":1,\"q_length\":3,\"q_scale\":2,\"v_train\":0}",
    "{\"d_lrbg\":1,\"l_doubtover\":1,\"l_doubtunder\":1,\"m_level\":4,\"m_mode\":1,\"nid_bg\":1,\
\"nid_c\":1,\"nid_packet\":0,\"q_dirlrbg\":1,\"q_dirtrain\":1,\"q_dlrbg\":1,\"q_length\":0,\
\"q_scale\":1,\"v_train\":1}",
];
